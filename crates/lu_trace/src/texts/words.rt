//! Words of a line: a first one, or a further one with a space before it.

ghost use Rattle.std.specs.Prelude.{◌≡◌, ◌++◌, ◌∷◌, [], OnOk, decimal};
ghost use Rattle.lu_base.specs.Texts.{pair_text, path_text};
ghost use Rattle.lu_trace.specs.Words.{words};
ghost use Rattle.lu_trace.specs.Values.{who_text, extent_text};
ghost use Rattle.lu_trace.specs.Lists.{seen_text};

use super::lists::put_seen;
use super::values::{put_extent, put_who};
use lu_base::{Bytes, Extent, Memory, Numbers, Path, Who, put_number, put_pair, put_path};

/// Appends a further word, a number in decimal, after one space. After want of memory a part of it may
/// stand.
pub fn then_number(out: &mut Bytes, number: u64) -> Result<(), Memory>
    ensures put { OnOk result (out.new ≡ out.old ++ 32 ∷ decimal number) }
{
    out.push(b' ')?;
    put_number(out, number)
}

/// A further word: a number of a boot and a count, as of a transaction.
pub fn then_pair(out: &mut Bytes, number: u64) -> Result<(), Memory>
    ensures put { OnOk result (out.new ≡ out.old ++ 32 ∷ pair_text number) }
{
    out.push(b' ')?;
    put_pair(out, number)
}

/// A further word: a life.
pub fn then_who(out: &mut Bytes, who: Who) -> Result<(), Memory>
    ensures put { OnOk result (out.new ≡ out.old ++ 32 ∷ who_text who) }
{
    out.push(b' ')?;
    put_who(out, who)
}

/// A further word: transactions that were seen.
pub fn then_seen(out: &mut Bytes, seen: &Numbers) -> Result<(), Memory>
    ensures put { OnOk result (out.new ≡ out.old ++ 32 ∷ seen_text seen.now) }
{
    out.push(b' ')?;
    put_seen(out, seen)
}

/// A further word: a range.
pub fn then_extent(out: &mut Bytes, extent: Extent) -> Result<(), Memory>
    ensures put { OnOk result (out.new ≡ out.old ++ 32 ∷ extent_text extent) }
{
    out.push(b' ')?;
    put_extent(out, extent)
}

/// A further word: a path.
pub fn then_path(out: &mut Bytes, path: &Path) -> Result<(), Memory>
    ensures put { OnOk result (out.new ≡ out.old ++ 32 ∷ path_text path.now) }
{
    out.push(b' ')?;
    put_path(out, path)
}

/// Appends a word and, after one space, a number in decimal. After want of memory a part of it may stand.
pub fn put_with_number(out: &mut Bytes, word: &[u8], number: u64) -> Result<(), Memory>
    ensures put { OnOk result (out.new ≡ out.old ++ words (word.now ∷ decimal number ∷ [])) }
{
    out.extend(word)?;
    then_number(out, number)
}

/// A word and a number of a boot and a count.
pub fn put_with_pair(out: &mut Bytes, word: &[u8], number: u64) -> Result<(), Memory>
    ensures put { OnOk result (out.new ≡ out.old ++ words (word.now ∷ pair_text number ∷ [])) }
{
    out.extend(word)?;
    then_pair(out, number)
}

/// A word and a life.
pub fn put_with_who(out: &mut Bytes, word: &[u8], who: Who) -> Result<(), Memory>
    ensures put { OnOk result (out.new ≡ out.old ++ words (word.now ∷ who_text who ∷ [])) }
{
    out.extend(word)?;
    then_who(out, who)
}

/// A word and a path.
pub fn put_with_path(out: &mut Bytes, word: &[u8], path: &Path) -> Result<(), Memory>
    ensures put { OnOk result (out.new ≡ out.old ++ words (word.now ∷ path_text path.now ∷ [])) }
{
    out.extend(word)?;
    then_path(out, path)
}

/// A word and two paths.
pub fn put_with_paths(out: &mut Bytes, word: &[u8], old: &Path, new: &Path) -> Result<(), Memory>
    ensures put { OnOk result (out.new ≡ out.old ++ words (word.now ∷ path_text old.now ∷ path_text new.now ∷ [])) }
{
    put_with_path(out, word, old)?;
    then_path(out, new)
}
