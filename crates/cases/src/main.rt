// Runs the code on the numbered cases and on the stored answers of the Rust that stand in the file `stdin`, and prints
// how many it compared and the first that differs.
#![tactic(auto)]

ghost use Rattle.std.specs.Prelude.{◌<◌};

use products::{ApplyResult, Blocked};
use readers::read_full;
use std::io;

// How many answers were compared, how many differ, and which was the first to, counted from 1.
#[derive(Clone, Copy)]
struct Tally {
    compared: u64,
    differ: u64,
    first: Option<u64>,
}

impl Tally {
    const NONE: Tally = Tally {
        compared: 0,
        differ: 0,
        first: None,
    };

    fn with(self, agrees: bool) -> Tally {
        let compared = self.compared.saturating_add(1);
        if agrees {
            return Tally { compared, ..self };
        }
        Tally {
            compared,
            differ: self.differ.saturating_add(1),
            first: self.first.or(Some(compared)),
        }
    }
}

// What was compared, and how it came out.
fn print_tally(rt: &impl Print, title: &str, t: Tally) -> io::Result<()> {
    let compared = t.compared;
    let differ = t.differ;
    print!(rt; "{title}{compared} compared, {differ} differ")?;
    if let Some(first) = t.first {
        print!(rt; ", the first is number {first}")?;
    }
    println!(rt; "")
}

// The number that a hexadecimal digit stands for. Any other byte stands for one too, so that every line has numbers.
fn digit(b: u8) -> u64 {
    if b'a' <= b {
        return ((b - b'a') as u64 + 10) % 16;
    }
    (b % 16) as u64
}

// Field k of a line: 16 hexadecimal digits, after the letter of the line's kind and a space before each field.
fn field(line: &[u8; 104], k: usize) -> u64
    requires { k < 6 }
{
    let mut x: u64 = 0;
    for i in 0..16 {
        x = x % 0x1000_0000_0000_0000 * 16 + digit(line[2 + 17 * k + i]) % 16;
    }
    x
}

// Does {cre|ann} on ket give the word and the sign (outcome 1), or Zero (outcome 0)?
fn applies(cre: u64, ann: u64, ket: u64, outcome: u64, word: u64, minus: u64) -> bool {
    match products::apply_op_ket_u64(cre, ann, ket) {
        ApplyResult::Applied(w, s) => outcome == 1 && w == word && minus == u64::from(s.0),
        ApplyResult::Zero(_) => outcome == 0,
    }
}

// Is {cre|ann} on ket blocked by this mode, which is missing?
fn is_missing(cre: u64, ann: u64, ket: u64, mode: u64) -> bool {
    let answer = products::apply_op_ket_u64(cre, ann, ket);
    matches!(answer, ApplyResult::Zero(Blocked::Missing(p)) if p == mode)
}

// Is {cre|ann} on ket blocked by this mode, which is still occupied?
fn is_occupied(cre: u64, ann: u64, ket: u64, mode: u64) -> bool {
    let answer = products::apply_op_ket_u64(cre, ann, ket);
    matches!(answer, ApplyResult::Zero(Blocked::Occupied(p)) if p == mode)
}

// Are these the words of the output: the annihilation word, the creation word and the coefficient, 1 or -1 as its bits, of each row, and zeros past them?
fn holds(out: &[u8; 96], words: &[u64; 12]) -> bool {
    (0..12).all(|i| lent::word(out, 8 * i) == words[i])
}

// Is {l_cre|l_ann} {r_cre|r_ann} not refused, with n rows, and these?
fn product_is(l_cre: u64, l_ann: u64, r_cre: u64, r_ann: u64, n: u64, words: &[u64; 12]) -> bool {
    let mut out = [255u8; 96];
    let answer = products::mul_cmpnts(l_cre, l_ann, r_cre, r_ann, &mut out);
    answer.is_ok_and(|w| w.branches == n) && holds(&out, words)
}

// Is it one row, {cre|ann} with this coefficient?
fn product_is_one(
    l_cre: u64,
    l_ann: u64,
    r_cre: u64,
    r_ann: u64,
    ann: u64,
    cre: u64,
    coeff: u64,
) -> bool {
    product_is(
        l_cre,
        l_ann,
        r_cre,
        r_ann,
        1,
        &[ann, cre, coeff, 0, 0, 0, 0, 0, 0, 0, 0, 0],
    )
}

// Cases 1 to 8, in their order: in case 3 the constant comes before the row of rank 1, in case 8 low rank before high.
fn numbered_products() -> Tally {
    let minus = u64::MAX;
    Tally::NONE
        .with(product_is(1, 0, 1, 0, 0, &[0; 12]))
        .with(product_is_one(1, 1, 1, 1, 1, 1, 1))
        .with(product_is(0, 1, 1, 0, 2, &[0, 0, 1, 1, 1, minus, 0, 0, 0, 0, 0, 0]))
        .with(product_is_one(0, 1, 2, 0, 1, 2, minus))
        .with(product_is_one(0, 1, 2, 4, 5, 2, minus))
        .with(product_is_one(1, 4, 2, 0, 4, 3, minus))
        .with(product_is_one(2, 0, 1, 0, 0, 3, minus))
        .with(product_is(0, 3, 3, 0, 4, &[0, 0, minus, 2, 2, 1, 1, 1, 1, 3, 3, 1]))
}

// Cases 9 to 13, in their order.
fn numbered_words() -> Tally {
    let nine = Tally::NONE
        .with(applies(0, 0, 0, 1, 0, 0))
        .with(applies(0, 0, 5, 1, 5, 0))
        .with(applies(0, 0, u64::MAX, 1, u64::MAX, 0));
    let ten = nine.with(applies(4, 1, 3, 1, 6, 1));
    let eleven = ten
        .with(is_missing(0, 4, 3, 2))
        .with(is_occupied(1, 0, 1, 0))
        .with(applies(1, 1, 1, 1, 1, 0));
    let top: u64 = 0x8000_0000_0000_0000;
    let twelve = eleven.with(applies(top, 0, top - 1, 1, u64::MAX, 1));
    twelve
        .with(applies(0, 3, 3, 1, 0, 1))
        .with(applies(3, 0, 0, 1, 3, 0))
}

fn stored_apply(line: &[u8; 104]) -> bool {
    applies(
        field(line, 0),
        field(line, 1),
        field(line, 2),
        field(line, 3),
        field(line, 4),
        field(line, 5),
    )
}

fn stored_count(line: &[u8; 104]) -> bool {
    let count = products::count_before_each_set_bit(field(line, 0), field(line, 1));
    u64::from(count) == field(line, 2)
}

// Reads the stored answers, at most 100,000 lines, and prints how those of each kind came out, and the lines of none.
fn print_stored(rt: &(impl Input + Print)) -> io::Result<()> {
    let mut reader = rt.reader();
    let mut applied = Tally::NONE;
    let mut counted = Tally::NONE;
    let mut unknown = Tally::NONE;
    for _ in 0..100000 {
        let mut line = [0u8; 104];
        let read = read_full(&mut reader, &mut line)?;
        if read == 0 {
            break;
        }
        match line[0] {
            b'a' if read == 104 => applied = applied.with(stored_apply(&line)),
            b'c' if read == 104 => counted = counted.with(stored_count(&line)),
            _ => unknown = unknown.with(false),
        }
    }
    print_tally(rt, "apply_op_ket_u64: ", applied)?;
    print_tally(rt, "count_before_each_set_bit: ", counted)?;
    print_tally(rt, "lines of no known kind: ", unknown)
}

fn main(rt: HostRuntime) -> io::Result<()> {
    print_tally(&rt, "numbered cases 1 to 8: ", numbered_products())?;
    print_tally(&rt, "numbered cases 9 to 13: ", numbered_words())?;
    print_stored(&rt)
}
