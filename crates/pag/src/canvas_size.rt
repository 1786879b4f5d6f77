// The canvas size for hosts, as a plain struct.
ghost use Rattle.std.specs.Prelude.{◌≡◌};
ghost use Rattle.canvas.specs.Canvas.{canvas_file};
ghost use Rattle.pag.specs.PlainCanvas.{plain_size, plain_canvas};

use canvas::{CanvasSize, Refusal};

// `found` is 1 where there is such a tag, and then the values are its own; else they are zeros. A reason that is not 0 refuses, with its number.
#[repr(C)]
#[derive(Clone, Copy)]
pub struct PagCanvasAnswer {
    pub found: u32,
    pub reason: u32,
    pub number: u64,
    pub headers: u64,
    pub values: [u64; 7],
}

impl From<CanvasSize> for PagCanvasAnswer {
    ghost from_gives = { λ size given. given ≡ plain_size size };

    fn from(answer: CanvasSize) -> PagCanvasAnswer {
        let none = PagCanvasAnswer {
            found: 0,
            reason: 0,
            number: 0,
            headers: answer.headers,
            values: [0u64; 7],
        };
        match answer.size {
            Ok(Some(values)) => PagCanvasAnswer {
                found: 1,
                values,
                ..none
            },
            Ok(None) => none,
            Err(Refusal { reason, number }) => PagCanvasAnswer {
                reason: u32::from(reason),
                number,
                ..none
            },
        }
    }
}

#[unsafe(no_mangle)]
pub extern "C" fn pag_canvas(level: u32, order: u32, file: &[u8]) -> PagCanvasAnswer
    ensures { result ≡ plain_canvas (canvas_file order level file.now) }
{
    PagCanvasAnswer::from(canvas::canvas(level, order, file))
}
