//! Reading a line.

ghost use Rattle.std.specs.Prelude.{◌≡◌, ℕ, List, [], ◌∷◌, ◌++◌, map, codes, IfOk, OnOk, IsErrOf, IfSome, IfNone, IsTrue, ◌↔◌};
ghost use Rattle.std.specs.Fmt.{decimal};
ghost use Rattle.std.specs.List.{AllByRecursion, flat_map};
ghost use Rattle.log_text.specs.Kind.{kind_word};
ghost use Rattle.log_text.specs.Spelling.{HasSpelling, spelling, words, Word, IsNumber, IsSide, IsValue, side_words, value_word};
ghost use Rattle.log_text.specs.declared.line.Line.{Line as AnyLine};
ghost use Rattle.log_text.specs.declared.line.LogValue.{LogValue as AnyValue};
ghost use Rattle.log_text.specs.declared.kind.Kind.{Kind as AnyKind};

use crate::kind::Kind;
use crate::line::{Line, LineFault, LogValues, Sides};
use crate::number::number;
use crate::pieces::Pieces;
use crate::value::value;
use std::alloc::Global;

/// The largest number in a line.
const MAX_NUMBER: u64 = 1 << 40;

/// The line that `bytes` spell, without the newline that ends it in a log.
///
/// `BadForm` says that no line has this spelling; `Memory` says nothing of the bytes. Takes time linear in the length
/// of the bytes, and memory linear in the line that is read.
pub fn read_line(alloc: Global, bytes: &[u8]) -> Result<Line, LineFault>
    ensures spelled { IfOk result (λ line. HasSpelling line × (spelling line ≡ bytes.now)) }
    // No other line has this spelling.
    ensures only { IfOk result (λ line. (other : AnyLine) → HasSpelling other → spelling other ≡ bytes.now → other ≡ line) }
    ensures bad_form { IsErrOf result LineFault.BadForm → (line : AnyLine) → HasSpelling line → spelling line ≡ bytes.now → ⊥ }
{
    line(alloc, &mut Pieces::of(bytes, b' '))
}

/// The line whose words these are.
fn line(alloc: Global, pieces: &mut Pieces<'_>) -> Result<Line, LineFault>
    ensures ok { IfOk result (λ line. HasSpelling line × (pieces.old ≡ words line)) }
    ensures bad { IsErrOf result LineFault.BadForm → (line : AnyLine) → HasSpelling line → pieces.old ≡ words line → ⊥ }
{
    match first_word(pieces)? {
        Kind::Header => header(pieces),
        Kind::Node => node(pieces),
        Kind::Axiom => axiom(alloc, pieces),
        Kind::Answer => answer(alloc, pieces),
        Kind::Resolvent => resolvent(alloc, pieces),
        Kind::Learned => Ok(Line::Learned {
            number: last_number(pieces)?,
        }),
        Kind::Close => Ok(Line::Close {
            number: last_number(pieces)?,
        }),
        Kind::End => {
            end(pieces)?;
            Ok(Line::End)
        }
    }
}

/// The kind of line that the next word names.
fn first_word(pieces: &mut Pieces<'_>) -> Result<Kind, LineFault>
    ensures ok { IfOk result (λ kind. pieces.old ≡ kind_word kind ∷ pieces.new) }
    ensures bad { IsErrOf result LineFault.BadForm → (kind : AnyKind) (rest : List Word) → pieces.old ≡ kind_word kind ∷ rest → ⊥ }
{
    pieces
        .next_piece()
        .and_then(|word| Kind::of(word))
        .ok_or(LineFault::BadForm)
}

/// The number that the next word spells.
fn next_number(pieces: &mut Pieces<'_>) -> Result<u64, LineFault>
    ensures ok { IfOk result (λ n. IsNumber n × (pieces.old ≡ decimal n ∷ pieces.new)) }
    ensures bad { IsErrOf result LineFault.BadForm → (n : ℕ) (rest : List Word) → IsNumber n → pieces.old ≡ decimal n ∷ rest → ⊥ }
{
    pieces
        .next_piece()
        .and_then(|word| number(word, MAX_NUMBER))
        .ok_or(LineFault::BadForm)
}

/// The numbers that the next two words spell.
fn next_two(pieces: &mut Pieces<'_>) -> Result<(u64, u64), LineFault>
    ensures ok { IfOk result (λ two. IsNumber two.0 × IsNumber two.1 × (pieces.old ≡ decimal two.0 ∷ decimal two.1 ∷ pieces.new)) }
    ensures bad { IsErrOf result LineFault.BadForm → (m n : ℕ) (rest : List Word) → IsNumber m → IsNumber n → pieces.old ≡ decimal m ∷ decimal n ∷ rest → ⊥ }
{
    let first = next_number(pieces)?;
    let second = next_number(pieces)?;
    Ok((first, second))
}

/// Ok where no word is left.
fn end(pieces: &mut Pieces<'_>) -> Result<(), LineFault>
    ensures ok { OnOk result (pieces.old ≡ []) }
    ensures bad { IsErrOf result LineFault.BadForm → pieces.old ≡ [] → ⊥ }
{
    match pieces.next_piece() {
        None => Ok(()),
        Some(_) => Err(LineFault::BadForm),
    }
}

/// The sides that the rest of the words spell.
fn sides(alloc: Global, pieces: &mut Pieces<'_>) -> Result<Sides, LineFault>
    ensures ok { IfOk result (λ sides. AllByRecursion IsSide sides × (pieces.old ≡ flat_map side_words sides)) }
    ensures bad { IsErrOf result LineFault.BadForm → (sides : List (ℕ × ℕ)) → AllByRecursion IsSide sides → pieces.old ≡ flat_map side_words sides → ⊥ }
{
    let mut sides = Vec::new(alloc);
    while !pieces.is_empty() {
        sides.push(next_two(pieces)?)?;
    }
    Ok(Sides::of(sides))
}

/// The values up to the bar, which is taken too.
fn values(alloc: Global, pieces: &mut Pieces<'_>) -> Result<LogValues, LineFault>
    ensures ok { IfOk result (λ values. AllByRecursion IsValue values × (pieces.old ≡ map value_word values ++ codes "|" ∷ pieces.new)) }
    ensures bad { IsErrOf result LineFault.BadForm → (values : List AnyValue) (rest : List Word) → AllByRecursion IsValue values
        → pieces.old ≡ map value_word values ++ codes "|" ∷ rest → ⊥ }
{
    let mut values = Vec::new(alloc);
    while let Some(word) = pieces.next_piece() {
        if is_bar(word) {
            return Ok(LogValues::of(values));
        }
        values.push(value(alloc, word)?)?;
    }
    Err(LineFault::BadForm)
}

/// Whether the word is the bar between the values and the sides.
fn is_bar(word: &[u8]) -> bool
    ensures { IsTrue result ↔ (word.now ≡ codes "|") }
{
    matches!(word, b"|")
}

/// The rest of a `setlog` line.
fn header(pieces: &mut Pieces<'_>) -> Result<Line, LineFault>
    ensures ok { IfOk result (λ line. HasSpelling line × (codes "setlog" ∷ pieces.old ≡ words line)) }
    ensures bad { IsErrOf result LineFault.BadForm → pieces.old ≡ codes "1" ∷ [] → ⊥ }
{
    match pieces.next_piece() {
        Some(b"1") => {
            end(pieces)?;
            Ok(Line::Header)
        }
        _ => Err(LineFault::BadForm),
    }
}

/// The rest of an `n` line.
fn node(pieces: &mut Pieces<'_>) -> Result<Line, LineFault>
    ensures ok { IfOk result (λ line. HasSpelling line × (codes "n" ∷ pieces.old ≡ words line)) }
    ensures bad { IsErrOf result LineFault.BadForm → (number place lo hi : ℕ) → HasSpelling (Line.Node number place lo hi)
        → pieces.old ≡ decimal number ∷ decimal place ∷ decimal lo ∷ decimal hi ∷ [] → ⊥ }
{
    let (number, place) = next_two(pieces)?;
    let (lo, hi) = next_two(pieces)?;
    end(pieces)?;
    Ok(Line::Node {
        number,
        place,
        lo,
        hi,
    })
}

/// The rest of an `a` line.
fn axiom(alloc: Global, pieces: &mut Pieces<'_>) -> Result<Line, LineFault>
    ensures ok { IfOk result (λ line. HasSpelling line × (codes "a" ∷ pieces.old ≡ words line)) }
    ensures bad { IsErrOf result LineFault.BadForm → (number constraint : ℕ) (sides : List (ℕ × ℕ)) → HasSpelling (Line.Axiom number constraint sides)
        → pieces.old ≡ decimal number ∷ decimal constraint ∷ flat_map side_words sides → ⊥ }
{
    let (number, constraint) = next_two(pieces)?;
    let sides = sides(alloc, pieces)?;
    Ok(Line::Axiom {
        number,
        constraint,
        sides,
    })
}

/// The rest of an `s` line.
fn answer(alloc: Global, pieces: &mut Pieces<'_>) -> Result<Line, LineFault>
    ensures ok { IfOk result (λ line. HasSpelling line × (codes "s" ∷ pieces.old ≡ words line)) }
    ensures bad { IsErrOf result LineFault.BadForm → (number : ℕ) (values : List AnyValue) (sides : List (ℕ × ℕ)) → HasSpelling (Line.Answer number values sides)
        → pieces.old ≡ decimal number ∷ (map value_word values ++ codes "|" ∷ flat_map side_words sides) → ⊥ }
{
    let number = next_number(pieces)?;
    let values = values(alloc, pieces)?;
    let sides = sides(alloc, pieces)?;
    Ok(Line::Answer {
        number,
        values,
        sides,
    })
}

/// The rest of an `r` line.
fn resolvent(alloc: Global, pieces: &mut Pieces<'_>) -> Result<Line, LineFault>
    ensures ok { IfOk result (λ line. HasSpelling line × (codes "r" ∷ pieces.old ≡ words line)) }
    ensures bad { IsErrOf result LineFault.BadForm → (number left right pivot : ℕ) (sides : List (ℕ × ℕ)) → HasSpelling (Line.Resolvent number left right pivot sides)
        → pieces.old ≡ decimal number ∷ decimal left ∷ decimal right ∷ decimal pivot ∷ flat_map side_words sides → ⊥ }
{
    let (number, left) = next_two(pieces)?;
    let (right, pivot) = next_two(pieces)?;
    let sides = sides(alloc, pieces)?;
    Ok(Line::Resolvent {
        number,
        left,
        right,
        pivot,
        sides,
    })
}

/// The one number that is left.
fn last_number(pieces: &mut Pieces<'_>) -> Result<u64, LineFault>
    ensures ok { IfOk result (λ n. IsNumber n × (pieces.old ≡ decimal n ∷ [])) }
    ensures bad { IsErrOf result LineFault.BadForm → (n : ℕ) → IsNumber n → pieces.old ≡ decimal n ∷ [] → ⊥ }
{
    let number = next_number(pieces)?;
    end(pieces)?;
    Ok(number)
}
