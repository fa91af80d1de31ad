// Putting texts, numbers and paths. No call here takes memory.
ghost use Rattle.std.specs.Prelude.{◌≡◌, ◌++◌, true, codes};
ghost use Rattle.fs_model.specs.PathText.{text_of};
ghost use Rattle.fs_model.specs.Output.{SinkHasCause};
ghost use Rattle.upgrade_answers.specs.Lines.{labelled};
ghost use Rattle.upgrade_answers.specs.Puts.{Puts};

use fs_model::{Name, Path, Sink, SinkError};
use itoa::Buffer;

pub(crate) fn put_two<K: Sink>(out: &mut K, first: &[u8], second: &[u8]) -> Result<(), SinkError>
    ensures told { K.told out.new ≡ K.told out.old }
    ensures appended { K.told out.old ≡ true → Puts (K.written out.old) (first.now ++ second.now) result (K.written out.new) }
    ensures cause { SinkHasCause (K.counts out.old) (K.counts out.new) result }
{
    out.put(first)?;
    out.put(second)
}

pub(crate) fn put_three<K: Sink>(
    out: &mut K,
    first: &[u8],
    second: &[u8],
    third: &[u8],
) -> Result<(), SinkError>
    ensures told { K.told out.new ≡ K.told out.old }
    ensures appended { K.told out.old ≡ true → Puts (K.written out.old) (first.now ++ second.now ++ third.now) result (K.written out.new) }
    ensures cause { SinkHasCause (K.counts out.old) (K.counts out.new) result }
{
    out.put(first)?;
    out.put(second)?;
    out.put(third)
}

/// A text and a number.
pub(crate) fn put_labelled<K: Sink>(out: &mut K, label: &[u8], number: u64) -> Result<(), SinkError>
    ensures told { K.told out.new ≡ K.told out.old }
    ensures appended { K.told out.old ≡ true → Puts (K.written out.old) (labelled label.now number) result (K.written out.new) }
    ensures cause { SinkHasCause (K.counts out.old) (K.counts out.new) result }
{
    let mut buffer = Buffer::new();
    put_two(out, label, buffer.format(number).as_bytes())
}

fn put_name<K: Sink>(out: &mut K, name: &Name) -> Result<(), SinkError>
    ensures told { K.told out.new ≡ K.told out.old }
    ensures appended { K.told out.old ≡ true → Puts (K.written out.old) (codes "/" ++ name.now) result (K.written out.new) }
    ensures cause { SinkHasCause (K.counts out.old) (K.counts out.new) result }
{
    out.put(b"/")?;
    out.put(name.text().as_bytes())
}

/// A path as it is written in a command line.
pub(crate) fn put_path<K: Sink>(out: &mut K, path: &Path) -> Result<(), SinkError>
    ensures told { K.told out.new ≡ K.told out.old }
    ensures appended { K.told out.old ≡ true → Puts (K.written out.old) (text_of path.now) result (K.written out.new) }
    ensures cause { SinkHasCause (K.counts out.old) (K.counts out.new) result }
{
    let names = path.names();
    for name in names {
        put_name(out, name)?;
    }
    if names.is_empty() {
        return out.put(b"/");
    }
    Ok(())
}

/// A text, a path and a text.
pub(crate) fn put_place<K: Sink>(
    out: &mut K,
    before: &[u8],
    path: &Path,
    after: &[u8],
) -> Result<(), SinkError>
    ensures told { K.told out.new ≡ K.told out.old }
    ensures appended { K.told out.old ≡ true → Puts (K.written out.old) (before.now ++ text_of path.now ++ after.now) result (K.written out.new) }
    ensures cause { SinkHasCause (K.counts out.old) (K.counts out.new) result }
{
    out.put(before)?;
    put_path(out, path)?;
    out.put(after)
}
