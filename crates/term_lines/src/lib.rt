// A term as a line of text.
#![tactic(auto)]

ghost use Rattle.std.specs.Prelude.{◌+◌, ◌≤◌, ◌<◌, length};
ghost use Rattle.decimals.specs.Stores.{Stored};
ghost use Rattle.term_lines.specs.Written.{sign_text, modes_text, term_text};

use modes::Term;

// The longest line: a minus, at most 20 digits, a space, at most 2 digits and a byte for each of 128 ladders, a line feed.
pub const LONGEST_LINE: usize = 534;

// A minus to the front where the coefficient is negative, and where it ends.
fn put_sign(s: &mut [u8], coeff: i64) -> usize
    requires { 0 < length s.old }
    ensures { Stored s.old 0 (sign_text coeff) s.new result }
{
    if coeff < 0 {
        s[0] = b'-';
        return 1;
    }
    0
}

// The ladders of a word's modes to `at`, each after a space and with the byte `kind` at its end, and where they end.
// `rest & (rest - 1)` is `rest` without its lowest mode.
fn put_modes(s: &mut [u8], at: usize, word: u64, kind: u8) -> usize
    requires { at + 256 ≤ length s.old }
    ensures { Stored s.old at (modes_text kind 64 word) s.new result }
{
    let mut end = at;
    let mut rest = word;
    // a `while`, since it takes as many steps as the word has modes
    while rest != 0 {
        s[end] = b' ';
        end = decimals::put_field(s, end + 1, modes::lowest_mode(rest), kind);
        rest &= rest - 1;
    }
    end
}

// The line of a term to the front, and its length.
pub fn put_line(s: &mut [u8], t: Term) -> usize
    requires { 534 ≤ length s.old }
    ensures { Stored s.old 0 (term_text t) s.new result }
{
    let sign = put_sign(s, t.coeff);
    let number = decimals::put_decimal(s, sign, integers::magnitude(t.coeff));
    let cre = put_modes(s, number, t.cre, b'^');
    let ann = put_modes(s, cre, t.ann, b'_');
    s[ann] = b'\n';
    ann + 1
}
