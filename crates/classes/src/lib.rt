// The class of each of the 1,024 codes, from one table.
#![tactic(auto)]

ghost use Rattle.std.specs.Prelude.{◌≡◌, ltb, ◌<◌, length};
ghost use Rattle.format.specs.Tests.{pick};
ghost use Rattle.std.proofs.lemmas.List.Edits.{sets};
ghost use Rattle.classes.specs.Tables.{tab};
ghost use Rattle.classes.specs.Classes.{all_classes, taken_as, named_by};
ghost use Rattle.classes.specs.declared.Class.TheVariants.{Opaque};

#[derive(Clone, Copy, Debug, PartialEq, Eq)]
pub enum Class {
    Opaque,
    End,
    Container,
    Fixed,
    Attributes,
}

// How much a walk reads of a tag list: all of it; or, where all of it was judged before, the lists alone, with every other body opaque.
#[derive(Clone, Copy, Debug, PartialEq, Eq)]
pub enum Scope {
    All,
    Lists,
}

// The codes 0 to 31; the others are opaque.
const FIRST: [Class; 32] = [
    Class::End,
    Class::Fixed,
    Class::Container,
    Class::Fixed,
    Class::Opaque,
    Class::Container,
    Class::Attributes,
    Class::Fixed,
    Class::Opaque,
    Class::Attributes,
    Class::Attributes,
    Class::Fixed,
    Class::Fixed,
    Class::Attributes,
    Class::Attributes,
    Class::Container,
    Class::Attributes,
    Class::Attributes,
    Class::Attributes,
    Class::Attributes,
    Class::Attributes,
    Class::Attributes,
    Class::Attributes,
    Class::Attributes,
    Class::Attributes,
    Class::Attributes,
    Class::Attributes,
    Class::Attributes,
    Class::Opaque,
    Class::Opaque,
    Class::Opaque,
    Class::Opaque,
];

const OTHERS: [Class; 32] = [Class::Opaque; 32];

const CLASSES: [[Class; 32]; 32] = [
    FIRST, OTHERS, OTHERS, OTHERS, OTHERS, OTHERS, OTHERS, OTHERS, OTHERS, OTHERS, OTHERS, OTHERS,
    OTHERS, OTHERS, OTHERS, OTHERS, OTHERS, OTHERS, OTHERS, OTHERS, OTHERS, OTHERS, OTHERS, OTHERS,
    OTHERS, OTHERS, OTHERS, OTHERS, OTHERS, OTHERS, OTHERS, OTHERS,
];

// The table, for a caller that looks up many classes.
pub fn all() -> [[Class; 32]; 32]
    ensures { result ≡ all_classes }
{
    CLASSES
}

// The class of a code at a level, from its class in the table: a code above the level is opaque.
pub fn at_level(level: u32, code: u32, listed: Class) -> Class
    ensures { result ≡ pick (ltb level code) Opaque listed }
{
    if level < code { Class::Opaque } else { listed }
}

// The class that a walk takes a tag for: where only lists are read, a body that has no list in it is opaque.
pub fn taken_as(scope: Scope, class: Class) -> Class
    ensures { result ≡ taken_as scope class }
{
    if scope == Scope::All || matches!(class, Class::End | Class::Container) {
        class
    } else {
        Class::Opaque
    }
}

// The classes that a walk goes by, those of the codes of the table's first row; the other codes are opaque.
pub fn fill_first(scope: Scope, level: u32, classes: &mut [Class])
    requires { 31 < length classes.old }
    ensures { classes.new ≡ sets classes.old 0 (tab (named_by scope level) 0 32) }
{
    let table = all();
    for code in 0..32 {
        let listed = table[0][code];
        classes[code] = taken_as(scope, at_level(level, code as u32, listed));
    }
}
