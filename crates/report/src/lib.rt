// A report over records: how many were accepted and refused, and their terms and weights, in all and for each rank.
#![tactic(auto)]

ghost use Rattle.std.specs.Prelude.{◌≡◌, true, ◌+◌, ◌≤◌, ◌<◌, ◌^◌, length};
ghost use Rattle.record.specs.Operands.{read_as};
ghost use Rattle.report.specs.Reports.{share_in, report_in, within, all_within, is_open, Counts};
ghost use Rattle.report.specs.Steps.{Grown, Mergeable, Merged, Countable, AcceptedIn};

use modes::{Reason, Refusal};
use record::Checked;

// A report's numbers: two counts, the share of all terms, the largest weight, and a share for each rank.
pub const NUMBERS: usize = 201;

// Where the share of all terms stands in a report, the largest weight, and the share of rank 0. A share is three numbers:
// terms, and the high and the low of their weight.
const TOTAL: usize = 2;

const LARGEST: usize = 5;

const RANK_0: usize = 6;

// A rank is below this.
const RANKS: usize = 65;

// The records that a report counts, and the most terms and the largest high with which a share is taken.
const MOST_RECORDS: u64 = 1024;

const MOST_TERMS: u64 = 2_097_152;

const HIGHEST: u64 = 1024;

// 15: the report counts all the records that it may, or one of its numbers is above its limit.
const BAD_REPORT: Refusal = Refusal {
    reason: Reason::BadReport,
    operand: 0,
    place: 0,
};

// Are the numbers of the share at `at` within their limits? No branch ends it early, since most of them are.
#[tactic(auto, unfolding(crate::specs::Reports::within))]
fn is_within(report: &[u64], at: usize) -> bool
    requires { at + 2 < length report.now }
    ensures { result ≡ within (share_in report.now at) }
{
    let few = report[at] <= MOST_TERMS;
    let light = report[at + 1] <= HIGHEST;
    few & (light & (report[at + 2] < record::HEAVIEST))
}

// Are the shares of all ranks?
#[tactic(auto, unfolding(crate::specs::Reports::all_within))]
fn ranks_within(report: &[u64; NUMBERS]) -> bool
    ensures { result ≡ all_within (report_in report.now).rank 65 }
{
    let mut all = true;
    for r in 0..RANKS {
        all &= is_within(report, RANK_0 + 3 * r);
    }
    all
}

// May a record more be counted? The two counts are not added, as their sum might not fit.
fn is_open(report: &[u64; NUMBERS]) -> bool
    ensures { result ≡ is_open (report_in report.now) }
{
    if MOST_RECORDS <= report[0] {
        return false;
    }
    if MOST_RECORDS - report[0] <= report[1] {
        return false;
    }
    if !is_within(report, TOTAL) {
        return false;
    }
    ranks_within(report)
}

// n terms more, of the weight w, in the share at `at`. Of most ranks a record has none, and then nothing is stored.
#[tactic(auto, unfolding(crate::specs::Reports::within))]
fn grow_share(report: &mut [u64], at: usize, n: u64, w: u64)
    requires { (at + 2 < length report.old) × (within (share_in report.old at) ≡ true) × (n ≤ 2 ^ 21) × (w ≤ 2 ^ 60) × (n ≡ 0 → w ≡ 0) }
    ensures { Grown at n w report.old report.new }
{
    if n == 0 {
        return;
    }
    let low = report[at + 2] + w;
    report[at] += n;
    report[at + 1] += low / record::HEAVIEST;
    report[at + 2] = low % record::HEAVIEST;
}

// The terms and weights of each rank, counted into its share.
fn merge(report: &mut [u64], terms: &[u64; 65], weights: &[u64; 65])
    requires { Mergeable report.old terms.now weights.now }
    ensures { Merged terms.now weights.now report.old report.new }
{
    for r in 0..RANKS {
        grow_share(report, RANK_0 + 3 * r, terms[r], weights[r]);
    }
}

// An accepted record more, with its tally.
fn count_accepted(report: &mut [u64], c: Checked, terms: &[u64; 65], weights: &[u64; 65])
    requires { Countable report.old c terms.now weights.now }
    ensures { AcceptedIn c terms.now weights.now report.old report.new }
{
    report[0] += 1;
    grow_share(report, TOTAL, c.terms as u64, c.weight);
    report[LARGEST] = figures::larger(report[LARGEST], c.weight);
    merge(report, terms, weights);
}

// The record `a` counted into the 201 numbers of a report, which is judged first. What is answered where it is taken is the
// record's own judgement.
fn count_record(a: &[u8], report: &mut [u64; NUMBERS]) -> Result<Result<(), Refusal>, Refusal>
    ensures { Counts report.old (read_as 1 a.now) result report.new }
{
    if !is_open(report) {
        return Err(BAD_REPORT);
    }
    let mut terms = [0u64; 65];
    let mut weights = [0u64; 65];
    match tally::tally_record(a, &mut terms, &mut weights) {
        Ok(c) => {
            count_accepted(report, c, &terms, &weights);
            Ok(Ok(()))
        }
        Err(own) => {
            report[1] += 1;
            Ok(Err(own))
        }
    }
}

// The record `a` counted into the report: refused where the report is, and else whether the record was accepted, or its own
// refusal.
pub fn add(a: &[u8], report: &mut [u64; NUMBERS]) -> Result<Result<(), Refusal>, Refusal>
    ensures { Counts report.old (read_as 1 a.now) result report.new }
{
    count_record(a, report)
}
