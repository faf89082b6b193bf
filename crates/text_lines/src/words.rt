// The words of a line.
ghost use Rattle.std.specs.Prelude.{◌≡◌, slice_get};
ghost use Rattle.std.specs.Option.{option_map};
ghost use Rattle.homa_plain.specs.Input.{words_of};

/// Word number `i` of a line, counted from 0: words are what stands between its spaces. There is none
/// where the line has `i` words or fewer.
pub fn word(line: &[u8], i: u32) -> Option<&[u8]>
    ensures { option_map (λ w. w.now) result ≡ slice_get (words_of line.now) i }
{
    line.split(|b| *b == b' ')
        .filter(|w| !w.is_empty())
        .nth(i as usize)
}
