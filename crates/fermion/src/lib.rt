// The C face: each function fills its answer whole, on every way out, as include/fermion.h says.
#![tactic(auto)]

ghost use Rattle.std.specs.Prelude.{◌≡◌, ◌+◌, ◌*◌, ◌<◌, cond, [], ◌∷◌, ◌++◌, length, take, drop};
ghost use Rattle.record.specs.Operands.{read_as};
ghost use Rattle.products.specs.Apply.{applied};
ghost use Rattle.products.specs.Product.{multiplied};
ghost use Rattle.lincomb.specs.Sums.{added, subtracted};
ghost use Rattle.multiply.specs.Answers.{product_of, commutator_of, anticommutator_of};
ghost use Rattle.branches.specs.Branches.{branches_told};
ghost use Rattle.adjoint.specs.Adjoint.{adjointed};
ghost use Rattle.adjoint.specs.Hermitian.{hermitian_of};
ghost use Rattle.mat_elem.specs.Elements.{element_of};
ghost use Rattle.mat_elem.specs.Matrix.{EightNumbers, EightRows, projected_of};
ghost use Rattle.float_elem.specs.Sums.{plus_zero};
ghost use Rattle.float_elem.specs.Elements.{float_element};
ghost use Rattle.compare.specs.Comparison.{compared_of};
ghost use Rattle.record.specs.Refusals.{checked_of};
ghost use Rattle.record.specs.Blocks.{block_of};
ghost use Rattle.text.specs.Import.{import_of};
ghost use Rattle.text.specs.Export.{export_of};
ghost use Rattle.shelf.specs.Requests.{Put, Get, Drop};
ghost use Rattle.shelf.specs.Steps.{Clear, By, step};
ghost use Rattle.figures.specs.Figures.{conserves_of, max_n_body_of, active_modes_of};
ghost use Rattle.fermion.specs.Face.{answered, own, apply_answer, written_five, written_answer, checked_five, checked_answer, tested_answer, measured_answer, stretch_answer, element_answer, Fills, FillsClean};
ghost use Rattle.fermion.specs.Face.{FillsFloat, compared_five, compared_answer, branches_five, branches_answer, counted_five, FillsReport, in_rows, FillsMatrix, FillsShelf};

use branches::BranchCounts;
use compare::Difference;
use float_elem::Complex64;
use mat_elem::Row;
use modes::{Refusal, Written};
use products::{ApplyResult, Blocked};
use record::Checked;

// 1 for true
fn flag(b: bool) -> u64
    ensures { result ≡ cond b 1 0 }
{
    u64::from(b)
}

// the answer of a call: five numbers of its value, or the refusal's three
fn answer_of(told: Result<[u64; 5], Refusal>) -> [u64; 8]
    ensures { result ≡ answered (λ five. five) told }
{
    match told {
        Ok(five) => {
            let [len, branches, x, y, z] = five;
            [0, 0, 0, len, branches, x, y, z]
        }
        Err(refusal) => [
            refusal.reason.number(),
            refusal.operand,
            refusal.place,
            0,
            0,
            0,
            0,
            0,
        ],
    }
}

// the answer of a call that tells no number
fn unvalued<T: Drop>(told: Result<T, Refusal>) -> [u64; 8]
    ensures { result ≡ answered (λ _. own 0 0 0) told }
{
    match told {
        Ok(_) => [0; 8],
        Err(refusal) => answer_of(Err(refusal)),
    }
}

fn found(n: u64) -> [u64; 5]
    ensures { result ≡ own n 0 0 }
{
    [0, 0, n, 0, 0]
}

// the answer of a call that finds a number
fn measured(number: Result<u64, Refusal>) -> [u64; 8]
    ensures { result ≡ measured_answer number }
{
    answer_of(number.map(found))
}

fn tested(holds: Result<bool, Refusal>) -> [u64; 8]
    ensures { result ≡ tested_answer holds }
{
    measured(holds.map(flag))
}

fn filled(w: Written) -> [u64; 5]
    ensures { result ≡ written_five w }
{
    [w.len as u64, w.branches, 0, 0, 0]
}

// the answer of a call that fills an output
fn written(w: Result<Written, Refusal>) -> [u64; 8]
    ensures { result ≡ written_answer w }
{
    answer_of(w.map(filled))
}

#[unsafe(no_mangle)]
pub extern "C" fn fermion_apply(cre: u64, ann: u64, ket: u64, answer: &mut [u64; 8])
    ensures { answer.new ≡ apply_answer (applied cre ann ket) }
{
    match products::apply_op_ket_u64(cre, ann, ket) {
        ApplyResult::Applied(word, sign) => {
            let minus = flag(sign.0);
            *answer = [0, 0, 0, 0, 0, 1, word, minus];
        }
        ApplyResult::Zero(blocked) => match blocked {
            Blocked::Missing(mode) => {
                *answer = [0, 0, 0, 0, 0, 0, 1, mode];
            }
            Blocked::Occupied(mode) => {
                *answer = [0, 0, 0, 0, 0, 0, 2, mode];
            }
        },
    }
}

#[unsafe(no_mangle)]
pub extern "C" fn fermion_mul_cmpnts(
    l_cre: u64,
    l_ann: u64,
    r_cre: u64,
    r_ann: u64,
    out: &mut [u8],
    answer: &mut [u64; 8],
)
    ensures { Fills (multiplied l_cre l_ann r_cre r_ann (length out.old)) out.new answer.new }
{
    *answer = written(products::mul_cmpnts(l_cre, l_ann, r_cre, r_ann, out));
}

// modes, terms and weight
fn accepted(c: Checked) -> [u64; 5]
    ensures { result ≡ checked_five c }
{
    [0, 0, c.modes, c.terms as u64, c.weight]
}

#[unsafe(no_mangle)]
pub extern "C" fn fermion_check(a: &[u8], answer: &mut [u64; 8])
    ensures { answer.new ≡ checked_answer (checked_of 1 a.now) }
{
    *answer = answer_of(record::check(a, 1).map(accepted));
}

#[unsafe(no_mangle)]
pub extern "C" fn fermion_add(a: &[u8], b: &[u8], out: &mut [u8], answer: &mut [u64; 8])
    ensures { Fills (added (length out.old) (read_as 1 a.now) (read_as 2 b.now)) out.new answer.new }
{
    *answer = written(lincomb::add(a, b, out));
}

#[unsafe(no_mangle)]
pub extern "C" fn fermion_sub(a: &[u8], b: &[u8], out: &mut [u8], answer: &mut [u64; 8])
    ensures { Fills (subtracted (length out.old) (read_as 1 a.now) (read_as 2 b.now)) out.new answer.new }
{
    *answer = written(lincomb::sub(a, b, out));
}

#[unsafe(no_mangle)]
pub extern "C" fn fermion_mul(
    a: &[u8],
    b: &[u8],
    work: &mut [u8],
    out: &mut [u8],
    answer: &mut [u64; 8],
)
    ensures { FillsClean (product_of (length work.old) (length out.old) (read_as 1 a.now) (read_as 2 b.now)) out.new answer.new (length work.old) work.new }
{
    *answer = written(multiply::mul(a, b, work, out));
}

#[unsafe(no_mangle)]
pub extern "C" fn fermion_commutator(
    a: &[u8],
    b: &[u8],
    work: &mut [u8],
    out: &mut [u8],
    answer: &mut [u64; 8],
)
    ensures { FillsClean (commutator_of (length work.old) (length out.old) (read_as 1 a.now) (read_as 2 b.now)) out.new answer.new (length work.old) work.new }
{
    *answer = written(multiply::commutator(a, b, work, out));
}

#[unsafe(no_mangle)]
pub extern "C" fn fermion_anticommutator(
    a: &[u8],
    b: &[u8],
    work: &mut [u8],
    out: &mut [u8],
    answer: &mut [u64; 8],
)
    ensures { FillsClean (anticommutator_of (length work.old) (length out.old) (read_as 1 a.now) (read_as 2 b.now)) out.new answer.new (length work.old) work.new }
{
    *answer = written(multiply::anticommutator(a, b, work, out));
}

// the branches of a b and of b a
fn counted(c: BranchCounts) -> [u64; 5]
    ensures { result ≡ branches_five c }
{
    [0, c.forward, c.backward, 0, 0]
}

#[unsafe(no_mangle)]
pub extern "C" fn fermion_branches(a: &[u8], b: &[u8], answer: &mut [u64; 8])
    ensures { answer.new ≡ branches_answer (branches_told (read_as 1 a.now) (read_as 2 b.now)) }
{
    *answer = answer_of(branches::branches(a, b).map(counted));
}

#[unsafe(no_mangle)]
pub extern "C" fn fermion_adjoint(a: &[u8], out: &mut [u8], answer: &mut [u64; 8])
    ensures { Fills (adjointed (length out.old) (read_as 1 a.now)) out.new answer.new }
{
    *answer = written(adjoint::adjoint(a, out));
}

#[unsafe(no_mangle)]
pub extern "C" fn fermion_is_hermitian(a: &[u8], answer: &mut [u64; 8])
    ensures { answer.new ≡ tested_answer (hermitian_of a.now) }
{
    *answer = tested(adjoint::is_hermitian(a));
}

#[unsafe(no_mangle)]
pub extern "C" fn fermion_conserves_particle_number(a: &[u8], answer: &mut [u64; 8])
    ensures { answer.new ≡ tested_answer (conserves_of (read_as 1 a.now)) }
{
    *answer = tested(figures::conserves_particle_number(a));
}

#[unsafe(no_mangle)]
pub extern "C" fn fermion_max_n_body(a: &[u8], answer: &mut [u64; 8])
    ensures { answer.new ≡ measured_answer (max_n_body_of (read_as 1 a.now)) }
{
    *answer = measured(figures::max_n_body(a));
}

#[unsafe(no_mangle)]
pub extern "C" fn fermion_active_modes(a: &[u8], answer: &mut [u64; 8])
    ensures { answer.new ≡ measured_answer (active_modes_of (read_as 1 a.now)) }
{
    *answer = measured(figures::active_modes(a));
}

#[unsafe(no_mangle)]
pub extern "C" fn fermion_import(
    m: u64,
    text: &[u8],
    work: &mut [u8],
    out: &mut [u8],
    answer: &mut [u64; 8],
)
    ensures { FillsClean (import_of m (length work.old) (length out.old) text.now) out.new answer.new (length work.old) work.new }
{
    *answer = written(text::import(m, text, work, out));
}

#[unsafe(no_mangle)]
pub extern "C" fn fermion_export(a: &[u8], out: &mut [u8], answer: &mut [u64; 8])
    ensures { Fills (export_of (length out.old) (read_as 1 a.now)) out.new answer.new }
{
    *answer = written(text::export(a, out));
}

// a record's own judgement: 1, or the number and the place of its refusal
fn judged(own: Result<(), Refusal>) -> [u64; 5]
    ensures { result ≡ counted_five own }
{
    match own {
        Ok(()) => [0, 0, 1, 0, 0],
        Err(refusal) => [0, 0, 0, refusal.reason.number(), refusal.place],
    }
}

#[unsafe(no_mangle)]
pub extern "C" fn fermion_report_add(a: &[u8], report: &mut [u64; 201], answer: &mut [u64; 8])
    ensures { FillsReport report.old (read_as 1 a.now) report.new answer.new }
{
    *answer = answer_of(report::add(a, report).map(judged));
}

#[unsafe(no_mangle)]
pub extern "C" fn fermion_block(a: &[u8], ann: u64, answer: &mut [u64; 8])
    ensures { answer.new ≡ stretch_answer (block_of a.now ann) }
{
    let b = record::block_bounds(a, ann);
    *answer = [0, 0, 0, 0, 0, b.start as u64, b.len as u64, 0];
}

#[unsafe(no_mangle)]
pub extern "C" fn fermion_element(a: &[u8], bra: u64, ket: u64, answer: &mut [u64; 8])
    ensures { answer.new ≡ element_answer (element_of (read_as 1 a.now) bra ket) }
{
    *answer = measured(mat_elem::element(a, bra, ket).map(integers::bits));
}

// re and im, plus zero for the one that a real has not
fn real(x: f64) -> [f64; 2]
    ensures { result ≡ x ∷ plus_zero ∷ [] }
{
    [x, 0.0]
}

fn complex(z: Complex64) -> [f64; 2]
    ensures { result ≡ z.re ∷ z.im ∷ [] }
{
    [z.re, z.im]
}

#[tactic(auto, using(crate::proofs::Telling::fills_float))]
#[unsafe(no_mangle)]
pub extern "C" fn fermion_mat_elem_real(
    m: u64,
    cre: &[u64],
    ann: &[u64],
    coeff: &[f64],
    bra: u64,
    ket: u64,
    value: &mut [f64; 2],
    answer: &mut [u64; 8],
)
    ensures { FillsFloat (float_element m cre.now ann.now (coeff.now ∷ []) bra ket) value.new answer.new }
{
    let element = float_elem::mat_elem_real(m, cre, ann, coeff, bra, ket);
    *value = element.map_or([0.0; 2], real);
    *answer = unvalued(element);
}

#[tactic(auto, using(crate::proofs::Telling::fills_float))]
#[unsafe(no_mangle)]
pub extern "C" fn fermion_mat_elem_complex(
    m: u64,
    cre: &[u64],
    ann: &[u64],
    re: &[f64],
    im: &[f64],
    bra: u64,
    ket: u64,
    value: &mut [f64; 2],
    answer: &mut [u64; 8],
)
    ensures { FillsFloat (float_element m cre.now ann.now (re.now ∷ im.now ∷ []) bra ket) value.new answer.new }
{
    let element = float_elem::mat_elem_complex(m, cre, ann, re, im, bra, ket);
    *value = element.map_or([0.0; 2], complex);
    *answer = unvalued(element);
}

// 1 for equal records, or the bra and the ket that are named
fn compared(found: Option<Difference>) -> [u64; 5]
    ensures { result ≡ compared_five found }
{
    match found {
        None => [0, 0, 1, 0, 0],
        Some(named) => [0, 0, 0, named.bra, named.ket],
    }
}

#[unsafe(no_mangle)]
pub extern "C" fn fermion_compare(a: &[u8], b: &[u8], answer: &mut [u64; 8])
    ensures { answer.new ≡ compared_answer (compared_of (read_as 1 a.now) (read_as 2 b.now)) }
{
    *answer = answer_of(compare::compare(a, b).map(compared));
}

// the i-th row to its eight numbers
fn put_row(m: &mut [i64; 64], i: usize, row: Row)
    requires { (i < 8) × EightNumbers row }
    ensures { m.new ≡ take (8 * i) m.old ++ (row.entries ++ drop (8 * i + 8) m.old) }
{
    m[8 * i..8 * i + 8].copy_from_slice(&row.entries);
}

// the eight rows one after the other
fn in_rows(rows: [Row; 8]) -> [i64; 64]
    requires { EightRows rows }
    ensures { result ≡ in_rows rows }
{
    let mut m = [0i64; 64];
    for i in 0..8 {
        put_row(&mut m, i, rows[i]);
    }
    m
}

#[tactic(auto, using(crate::proofs::Telling::fills_matrix))]
#[unsafe(no_mangle)]
pub extern "C" fn fermion_mat_ortho_projected(
    a: &[u8],
    basis: &[u64],
    matrix: &mut [i64; 64],
    answer: &mut [u64; 8],
)
    ensures { FillsMatrix (projected_of (read_as 1 a.now) basis.now) matrix.new answer.new }
{
    let projected = mat_elem::mat_ortho_projected(a, basis);
    *matrix = projected.map_or([0; 64], in_rows);
    *answer = unvalued(projected);
}

#[unsafe(no_mangle)]
pub extern "C" fn fermion_shelf_clear(shelf: &mut [u8], answer: &mut [u64; 8])
    ensures { FillsShelf (step Clear shelf.old) [] shelf.new answer.new }
{
    shelf::clear(shelf);
    *answer = [0; 8];
}

#[unsafe(no_mangle)]
pub extern "C" fn fermion_shelf_put(shelf: &mut [u8], party: u64, a: &[u8], answer: &mut [u64; 8])
    ensures { FillsShelf (step (By party (Put a.now)) shelf.old) [] shelf.new answer.new }
{
    let put = shelf::put(shelf, party, a);
    *answer = measured(put.map(|slot| slot as u64));
}

#[unsafe(no_mangle)]
pub extern "C" fn fermion_shelf_get(
    shelf: &[u8],
    party: u64,
    slot: u64,
    out: &mut [u8],
    answer: &mut [u64; 8],
)
    ensures { FillsShelf (step (By party (Get slot (length out.old))) shelf.now) out.new shelf.now answer.new }
{
    let got = shelf::get(shelf, party, slot, out);
    *answer = written(got.map(|len| Written { len, branches: 0 }));
}

#[unsafe(no_mangle)]
pub extern "C" fn fermion_shelf_drop(shelf: &mut [u8], party: u64, slot: u64, answer: &mut [u64; 8])
    ensures { FillsShelf (step (By party (Drop slot)) shelf.old) [] shelf.new answer.new }
{
    *answer = unvalued(shelf::drop(shelf, party, slot));
}
