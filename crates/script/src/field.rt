// The fields of a line, which single spaces part.
ghost use Rattle.std.specs.Prelude.{◌≡◌, ◌==◌, [], ◌∷◌, position, IfOk, IfErr};
ghost use Rattle.script.specs.declared.fault.LineFault.TheVariants.{Form};
ghost use Rattle.script.specs.Lines.{fields};
ghost use Rattle.script.specs.Fields.{one, two, four, one_now, two_now, four_now};

use crate::fault::LineFault;

// The fields of a line that generates.
pub(crate) type Four<'a> = (&'a [u8], &'a [u8], &'a [u8], &'a [u8]);

// Where the first field ends, if another one follows.
fn field_end(text: &[u8]) -> Option<usize>
    ensures { result ≡ position (λ b. b == 32) text.now }
{
    text.iter().position(|byte| *byte == b' ')
}

// The first of several fields, and the text of the others.
fn next(text: &[u8]) -> Result<(&[u8], &[u8]), LineFault>
    ensures several { IfOk result (λ r. fields text.now ≡ r.0.now ∷ fields r.1.now) }
    ensures alone { IfErr result (λ e. (e ≡ Form) × (fields text.now ≡ text.now ∷ [])) }
{
    match field_end(text) {
        Some(at) => Ok((&text[..at], &text[at + 1..])),
        None => Err(LineFault::Form),
    }
}

// The only field of a text.
pub(crate) fn one(text: &[u8]) -> Result<&[u8], LineFault>
    ensures { one_now result ≡ one (fields text.now) }
{
    match field_end(text) {
        Some(_) => Err(LineFault::Form),
        None => Ok(text),
    }
}

// The two fields of a text.
pub(crate) fn two(text: &[u8]) -> Result<(&[u8], &[u8]), LineFault>
    ensures { two_now result ≡ two (fields text.now) }
{
    let (first, others) = next(text)?;
    let second = one(others)?;
    Ok((first, second))
}

// The four fields of a text.
pub(crate) fn four(text: &[u8]) -> Result<Four<'_>, LineFault>
    ensures { four_now result ≡ four (fields text.now) }
{
    let (first, others) = next(text)?;
    let (second, others) = next(others)?;
    let (third, fourth) = two(others)?;
    Ok((first, second, third, fourth))
}
