// The flags of attributes, gathered as one field.
ghost use Rattle.std.specs.Prelude.{◌<◌, ◌^◌};

// Flag bits as one field; and how many they are.
#[derive(Clone, Copy)]
pub struct Flags {
    pub bits: u64,
    pub width: usize,
    ghost held: { bits < 2 ^ width },
}
