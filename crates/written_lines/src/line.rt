// Lines of words, which are written through a buffer.
ghost use Rattle.std.specs.Prelude.{◌≡◌, ◌++◌, ◌∷◌, [], map};
ghost use Rattle.std.specs.List.{flat_map};
ghost use Rattle.homa_io.specs.Writing.{IsWritten};
ghost use Rattle.homa_plain.specs.Text.{line_of_words};
ghost use Rattle.written_lines.specs.Put.{Puts};
ghost use Rattle.written_lines.specs.Written.{word_text, spaced_word};

use crate::Word;
use crate::held::{Held, append, put_hex};
use crate::written::{call_text, id_text, number_text, route_text};
use homa_io::{Sink, WriteFailed, write_all};

// How many bytes of a line of words are held before a write.
const TINY: usize = 256;

// Holds one word of a line.
fn put_word<K: Sink, const N: usize>(
    sink: &mut K,
    held: &mut Held<N>,
    word: Word<'_>,
) -> Result<(), WriteFailed>
    ensures { Puts K.taken K.faults K.is_same result sink.old sink.new held.new.items (held.old.items ++ word_text word.entry) }
{
    match word {
        Word::Text(bytes) => append(sink, held, bytes),
        Word::Hex([]) => append(sink, held, b"-"),
        Word::Hex(bytes) => put_hex(sink, held, bytes),
        Word::Number(n) => append(sink, held, number_text(n).as_slice()),
        Word::Host(host) => append(sink, held, number_text(u64::from(host.0)).as_slice()),
        Word::Id(id) => append(sink, held, id_text(id).as_slice()),
        Word::Route(from, to) => append(sink, held, route_text(from, to).as_slice()),
        Word::Call(inc, seq) => append(sink, held, call_text(inc, seq).as_slice()),
    }
}

// Holds a word after a space.
fn put_spaced<K: Sink, const N: usize>(
    sink: &mut K,
    held: &mut Held<N>,
    word: Word<'_>,
) -> Result<(), WriteFailed>
    ensures { Puts K.taken K.faults K.is_same result sink.old sink.new held.new.items (held.old.items ++ spaced_word word.entry) }
{
    append(sink, held, b" ")?;
    put_word(sink, held, word)
}

// Holds words, each after a space.
fn put_others<K: Sink, const N: usize>(
    sink: &mut K,
    held: &mut Held<N>,
    words: &[Word<'_>],
) -> Result<(), WriteFailed>
    ensures { Puts K.taken K.faults K.is_same result sink.old sink.new held.new.items (held.old.items ++ flat_map spaced_word words.now) }
{
    for word in words {
        put_spaced(sink, held, *word)?;
    }
    Ok(())
}

// Writes a word, words after it and a line feed.
fn put_words<K: Sink, const N: usize>(
    sink: &mut K,
    held: &mut Held<N>,
    first: Word<'_>,
    others: &[Word<'_>],
) -> Result<(), WriteFailed>
    requires { held.old.items ≡ [] }
    ensures { IsWritten K.taken K.faults K.is_same result sink.old sink.new (line_of_words (word_text first.entry ∷ map word_text others.now)) }
{
    put_word(sink, held, first)?;
    put_others(sink, held, others)?;
    append(sink, held, b"\n")?;
    write_all(sink, held.as_slice())
}

/// Writes words with one space between two, and a line feed. This is one `write`, unless a word of bytes in hex is
/// longer than 128 digits, the words than 256 bytes, or the sink takes only a part. After an error it took a prefix.
pub fn put_line<K: Sink>(sink: &mut K, words: &[Word<'_>]) -> Result<(), WriteFailed>
    ensures { IsWritten K.taken K.faults K.is_same result sink.old sink.new (line_of_words (map word_text words.now)) }
{
    match words {
        [] => write_all(sink, b"\n"),
        [first, others @ ..] => put_words(sink, &mut Held::<TINY>::new(), *first, others),
    }
}
