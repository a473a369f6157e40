// What a piece of the text writes: a constant of a kind.
ghost use Rattle.std.specs.Prelude.{◌≡◌};
ghost use Rattle.query_core_emit.specs.Emission.{constant_in};

use query_core::Constant;
use text::{Span, part};
use values::{Kind, read_scalar};

// The constant that the piece at p writes in a kind.
#[tactic(auto, unfolding(crate::specs::Emission::constant_in))]
pub fn constant_of(text: &[u8], p: Span, kind: Kind) -> Option<Constant>
    ensures { result ≡ constant_in text.now p kind }
{
    let piece = part(text, p.start, p.len);
    match kind {
        Kind::Page => None,
        Kind::Scalar(k) => read_scalar(k, piece).map(|n| Constant::Scalar(k, n)),
        Kind::String => Some(Constant::String(p)),
    }
}
