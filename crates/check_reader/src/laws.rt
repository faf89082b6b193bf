// The laws of lines. No code stands here, only theorems; each is a clause of a function that does nothing.
ghost use Rattle.std.specs.Prelude.{◌≡◌, true};
ghost use Rattle.homa_plain.specs.Entries.{PlainEntry};
ghost use Rattle.homa_plain.specs.Input.{ends_in_feed};
ghost use Rattle.homa_plain.specs.Text.{line_text};
ghost use Rattle.check_reader.specs.Told.{Fits, IsUsual};

/// What lines tell: no two entries have one line, and each entry's line has one line feed, at its end.
pub fn entry_lines()
    ensures one_entry { (e f : PlainEntry) → Fits e → Fits f → IsUsual e → IsUsual f → line_text e ≡ line_text f → e ≡ f }
    ensures one_line { (e : PlainEntry) → Fits e → ends_in_feed (line_text e) ≡ true }
{}
