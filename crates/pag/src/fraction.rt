// The opacity of a mask at a frame, for hosts (C-22).
ghost use Rattle.std.specs.Prelude.{◌≡◌};
ghost use Rattle.opacity.specs.Opacity.{opacity_at};
ghost use Rattle.pag.specs.PlainFraction.{plain_fraction};

use opacity::Fraction;

// Reason 0: an exact fraction; after a refusal both its numbers are 0.
#[repr(C)]
#[derive(Clone, Copy)]
pub struct PagFraction {
    pub reason: u32,
    pub numerator: u64,
    pub denominator: u64,
}

#[unsafe(no_mangle)]
pub extern "C" fn pag_opacity(order: u32, body: &[u8], t: u64) -> PagFraction
    ensures { result ≡ plain_fraction (opacity_at order body.now t) }
{
    match opacity::opacity(order, body, t) {
        Ok(Fraction { above, below }) => PagFraction {
            reason: 0,
            numerator: above,
            denominator: below,
        },
        Err(reason) => PagFraction {
            reason: u32::from(reason),
            numerator: 0,
            denominator: 0,
        },
    }
}
