// The attribute lists of tags 6, 9, 10 and 13 to 27 as constant rows of kind and data type.
ghost use Rattle.std.specs.Prelude.{◌≡◌, ◌≤◌, length};
ghost use Rattle.attributes.specs.Rows.{attributes_in, attributes_of};

use crate::{Attribute, DataType, Kind};

const BIT: Attribute = Attribute {
    kind: Kind::BitFlag,
    data_type: DataType::Bool,
};

const ID: Attribute = Attribute {
    kind: Kind::Value,
    data_type: DataType::U32,
};

const RATIO: Attribute = Attribute {
    kind: Kind::Value,
    data_type: DataType::Ratio,
};

const TIME: Attribute = Attribute {
    kind: Kind::Value,
    data_type: DataType::Time,
};

const POINT: Attribute = Attribute {
    kind: Kind::Value,
    data_type: DataType::Point,
};

const FLOAT: Attribute = Attribute {
    kind: Kind::Value,
    data_type: DataType::Float,
};

const BYTE: Attribute = Attribute {
    kind: Kind::Value,
    data_type: DataType::Byte,
};

const BLEND_MODE: Attribute = Attribute {
    kind: Kind::Value,
    data_type: DataType::BlendMode,
};

const TRACK_MATTE_TYPE: Attribute = Attribute {
    kind: Kind::Value,
    data_type: DataType::EnumTo4,
};

const MASK_MODE: Attribute = Attribute {
    kind: Kind::Value,
    data_type: DataType::EnumTo7,
};

const ANCHOR_POINT_GROUPING: Attribute = Attribute {
    kind: Kind::Value,
    data_type: DataType::EnumTo6,
};

const POLY_STAR_TYPE: Attribute = Attribute {
    kind: Kind::Value,
    data_type: DataType::EnumTo1,
};

const COMPOSITE_ORDER: Attribute = Attribute {
    kind: Kind::Value,
    data_type: DataType::EnumTo1,
};

const FILL_RULE: Attribute = Attribute {
    kind: Kind::Value,
    data_type: DataType::EnumTo1,
};

const LINE_CAP: Attribute = Attribute {
    kind: Kind::Value,
    data_type: DataType::EnumTo2,
};

const LINE_JOIN: Attribute = Attribute {
    kind: Kind::Value,
    data_type: DataType::EnumTo2,
};

const GRADIENT_FILL_TYPE: Attribute = Attribute {
    kind: Kind::Value,
    data_type: DataType::EnumTo1,
};

const MERGE_PATHS_MODE: Attribute = Attribute {
    kind: Kind::Value,
    data_type: DataType::EnumTo4,
};

const TRIM_PATHS_TYPE: Attribute = Attribute {
    kind: Kind::Value,
    data_type: DataType::EnumTo1,
};

const FIXED_ID: Attribute = Attribute {
    kind: Kind::Fixed,
    data_type: DataType::U32,
};

const FIXED_TIME: Attribute = Attribute {
    kind: Kind::Fixed,
    data_type: DataType::Time,
};

const DISCRETE_BOOL: Attribute = Attribute {
    kind: Kind::Discrete,
    data_type: DataType::Bool,
};

const SIMPLE_FLOAT: Attribute = Attribute {
    kind: Kind::Simple,
    data_type: DataType::Float,
};

const SIMPLE_BYTE: Attribute = Attribute {
    kind: Kind::Simple,
    data_type: DataType::Byte,
};

const SIMPLE_PATH: Attribute = Attribute {
    kind: Kind::Simple,
    data_type: DataType::Path,
};

const SIMPLE_COLOR: Attribute = Attribute {
    kind: Kind::Simple,
    data_type: DataType::Color,
};

const SIMPLE_GRADIENT: Attribute = Attribute {
    kind: Kind::Simple,
    data_type: DataType::GradientColor,
};

const SIZED_POINT: Attribute = Attribute {
    kind: Kind::MultiDimension,
    data_type: DataType::Point,
};

const SPATIAL_POINT: Attribute = Attribute {
    kind: Kind::Spatial,
    data_type: DataType::Point,
};

const DASHES: Attribute = Attribute {
    kind: Kind::Custom,
    data_type: DataType::Dashes,
};

const TAG_BLOCK: Attribute = Attribute {
    kind: Kind::Custom,
    data_type: DataType::TagBlock,
};

// 6: isActive, autoOrientation, parent, stretch, startTime, blendMode, trackMatteType, timeRemap, duration
const LAYER_ATTRIBUTES: [Attribute; 9] = [
    BIT,
    BIT,
    ID,
    RATIO,
    TIME,
    BLEND_MODE,
    TRACK_MATTE_TYPE,
    SIMPLE_FLOAT,
    FIXED_TIME,
];

// 9: path, reversed, perpendicular, forceAlignment, firstMargin, lastMargin
const TEXT_PATH_OPTION: [Attribute; 6] = [
    ID,
    DISCRETE_BOOL,
    DISCRETE_BOOL,
    DISCRETE_BOOL,
    SIMPLE_FLOAT,
    SIMPLE_FLOAT,
];

// 10: anchorPointGrouping, groupingAlignment
const TEXT_MORE_OPTION: [Attribute; 2] = [ANCHOR_POINT_GROUPING, SIZED_POINT];

// 13: anchorPoint, position, xPosition, yPosition, scale, rotation, opacity
const TRANSFORM_2D: [Attribute; 7] = [POINT, POINT, FLOAT, FLOAT, POINT, FLOAT, BYTE];

// 14: id, inverted, maskMode, path, opacity, expansion
const MASK_BLOCK: [Attribute; 6] = [
    FIXED_ID,
    BIT,
    MASK_MODE,
    SIMPLE_PATH,
    SIMPLE_BYTE,
    SIMPLE_FLOAT,
];

// 15: blendMode, anchorPoint, position, scale, skew, skewAxis, rotation, opacity, TagBlock
const SHAPE_GROUP: [Attribute; 9] = [
    BLEND_MODE,
    SPATIAL_POINT,
    SPATIAL_POINT,
    SIZED_POINT,
    SIMPLE_FLOAT,
    SIMPLE_FLOAT,
    SIMPLE_FLOAT,
    SIMPLE_BYTE,
    TAG_BLOCK,
];

// 16: reversed, size, position, roundness
const RECTANGLE: [Attribute; 4] = [BIT, SIZED_POINT, SPATIAL_POINT, SIMPLE_FLOAT];

// 17: reversed, size, position
const ELLIPSE: [Attribute; 3] = [BIT, SIZED_POINT, SPATIAL_POINT];

// 18: reversed, polyType, points, position, rotation, innerRadius, outerRadius, innerRoundness, outerRoundness
const POLY_STAR: [Attribute; 9] = [
    BIT,
    POLY_STAR_TYPE,
    SIMPLE_FLOAT,
    SPATIAL_POINT,
    SIMPLE_FLOAT,
    SIMPLE_FLOAT,
    SIMPLE_FLOAT,
    SIMPLE_FLOAT,
    SIMPLE_FLOAT,
];

// 19: shapePath
const SHAPE_PATH: [Attribute; 1] = [SIMPLE_PATH];

// 20: blendMode, composite, fillRule, color, opacity
const FILL_BLOCK: [Attribute; 5] = [
    BLEND_MODE,
    COMPOSITE_ORDER,
    FILL_RULE,
    SIMPLE_COLOR,
    SIMPLE_BYTE,
];

// 21: blendMode, composite, lineCap, lineJoin, miterLimit, color, opacity, strokeWidth
const STROKE: [Attribute; 8] = [
    BLEND_MODE,
    COMPOSITE_ORDER,
    LINE_CAP,
    LINE_JOIN,
    SIMPLE_FLOAT,
    SIMPLE_COLOR,
    SIMPLE_BYTE,
    SIMPLE_FLOAT,
];

// 22: blendMode, composite, fillRule, fillType, startPoint, endPoint, colors, opacity
const GRADIENT_FILL: [Attribute; 8] = [
    BLEND_MODE,
    COMPOSITE_ORDER,
    FILL_RULE,
    GRADIENT_FILL_TYPE,
    SPATIAL_POINT,
    SPATIAL_POINT,
    SIMPLE_GRADIENT,
    SIMPLE_BYTE,
];

// 23: blendMode, composite, fillType, startPoint, endPoint, color, opacity, strokeWidth, lineCap, lineJoin, miterLimit, dashes
const GRADIENT_STROKE: [Attribute; 12] = [
    BLEND_MODE,
    COMPOSITE_ORDER,
    GRADIENT_FILL_TYPE,
    SPATIAL_POINT,
    SPATIAL_POINT,
    SIMPLE_COLOR,
    SIMPLE_BYTE,
    SIMPLE_FLOAT,
    LINE_CAP,
    LINE_JOIN,
    SIMPLE_FLOAT,
    DASHES,
];

// 24: mode
const MERGE_PATHS: [Attribute; 1] = [MERGE_PATHS_MODE];

// 25: start, end, offset, trimType
const TRIM_PATHS: [Attribute; 4] = [SIMPLE_FLOAT, SIMPLE_FLOAT, SIMPLE_FLOAT, TRIM_PATHS_TYPE];

// 26: composite, copies, offset, anchorPoint, position, scale, rotation, startOpacity, endOpacity
const REPEATER: [Attribute; 9] = [
    COMPOSITE_ORDER,
    SIMPLE_FLOAT,
    SIMPLE_FLOAT,
    SPATIAL_POINT,
    SPATIAL_POINT,
    SIZED_POINT,
    SIMPLE_FLOAT,
    SIMPLE_BYTE,
    SIMPLE_BYTE,
];

// 27: radius
const ROUND_CORNERS: [Attribute; 1] = [SIMPLE_FLOAT];

// The attributes of a tag that is an attribute block, in order; the others have none.
#[tactic(auto, unfolding(crate::specs::Rows::attributes_of))]
pub fn block_of(code: u32) -> &'static [Attribute]
    ensures few { length result.now ≤ 12 }
    ensures are { attributes_in result.now ≡ attributes_of code }
{
    match code {
        6 => &LAYER_ATTRIBUTES,
        9 => &TEXT_PATH_OPTION,
        10 => &TEXT_MORE_OPTION,
        13 => &TRANSFORM_2D,
        14 => &MASK_BLOCK,
        15 => &SHAPE_GROUP,
        16 => &RECTANGLE,
        17 => &ELLIPSE,
        18 => &POLY_STAR,
        19 => &SHAPE_PATH,
        20 => &FILL_BLOCK,
        21 => &STROKE,
        22 => &GRADIENT_FILL,
        23 => &GRADIENT_STROKE,
        24 => &MERGE_PATHS,
        25 => &TRIM_PATHS,
        26 => &REPEATER,
        27 => &ROUND_CORNERS,
        _ => &[],
    }
}
