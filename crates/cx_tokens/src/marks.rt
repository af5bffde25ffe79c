//! Marks.
ghost use Rattle.std.specs.Prelude.{◌≡◌, ◌<◌, ◌≤◌, ◌+◌, ◌^◌, length};
ghost use Rattle.cx_tokens.specs.Marks.{mark_after, marks_on};

use cx_base::Mark;

fn mark_after(mark: Mark, b: u8) -> Mark
    requires byte { mark.byte + 1 < 2 ^ 32 }
    requires line { mark.line + 1 < 2 ^ 32 }
    requires col { mark.col + 1 < 2 ^ 32 }
    ensures { result ≡ mark_after mark b }
{
    if b == b'\n' {
        Mark {
            byte: mark.byte + 1,
            line: mark.line + 1,
            col: 1,
        }
    } else {
        Mark {
            byte: mark.byte + 1,
            line: mark.line,
            col: mark.col + 1,
        }
    }
}

/// The mark behind some bytes, given that before them.
pub fn mark_on(bytes: &[u8], start: Mark) -> Mark
    requires byte { start.byte + length bytes.now ≤ 4_194_305 }
    requires line { start.line + length bytes.now ≤ 4_194_306 }
    requires col { start.col + length bytes.now ≤ 4_194_306 }
    ensures { result ≡ marks_on start bytes.now }
{
    let mut mark = start;
    for b in bytes {
        mark = mark_after(mark, *b);
    }
    mark
}
