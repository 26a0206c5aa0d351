ghost use Rattle.std.specs.Prelude.{◌≡◌, ◌≤◌};
ghost use Rattle.form.specs.Verdict.{piece, layout};
ghost use Rattle.grammar.specs.Views.{piece_told, layout_told};

use crate::items::Item;
use form::expr::Expr;
use form::fault::{Fault, FaultKind, Section};

// A section: its count, its bytes, and the bytes behind it. The count stands in the file, and records are held against it: to
// work it out of the bytes again would be no plainer.
#[derive(Clone, Copy)]
pub(crate) struct Piece<'a> {
    pub count: u16,
    pub bytes: &'a [u8],
    pub after: &'a [u8],
}

// The three sections of a file.
#[derive(Clone, Copy)]
pub(crate) struct Layout<'a> {
    pub text: Piece<'a>,
    pub exprs: Piece<'a>,
    pub rules: Piece<'a>,
}

// The section at the front: its count is there and in its limits, and so are its items of `size` bytes each.
fn take_piece<'a>(
    bytes: &'a [u8],
    section: Section,
    low: u16,
    high: u16,
    size: usize,
) -> Result<Piece<'a>, Fault>
    requires { size ≤ 5 }
    ensures { piece_told result ≡ piece section low high size bytes.now }
{
    let [first, second, rest @ ..] = bytes else {
        return Err(Fault::new(FaultKind::EndsEarly, section, 0));
    };
    let count = u16::from_be_bytes([*first, *second]);
    if !(low..=high).contains(&count) {
        return Err(Fault::new(FaultKind::CountOutOfLimits, section, 0));
    }
    let Some((bytes, after)) = rest.split_at_checked(usize::from(count) * size) else {
        return Err(Fault::new(FaultKind::EndsEarly, section, 0));
    };
    Ok(Piece {
        count,
        bytes,
        after,
    })
}

// The sections in their order, each within its limits.
pub(crate) fn split(bytes: &[u8]) -> Result<Layout<'_>, Fault>
    ensures { layout_told result ≡ layout bytes.now }
{
    let text = take_piece(bytes, Section::Text, 0, 1024, 1)?;
    let exprs = take_piece(text.after, Section::Expressions, 1, 512, Expr::SIZE)?;
    let rules = take_piece(exprs.after, Section::Rules, 1, 64, u16::SIZE)?;
    Ok(Layout { text, exprs, rules })
}
