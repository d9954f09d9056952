// Replays a stored sample of answers: what independent Rust says, held against what the proved crates say, word by
// word and with no Rust at hand.
//
// The sample comes on standard input (the file stdin beside src/). It was written by `cargo run --release --offline --
// sample --seed 1` in oracle/, whose README.md says how it is laid out. Its answers come from Rust's own arithmetic,
// UTF-8 and little-endian words and, for the calls on relations, traces and instances, from the second reading of
// documents 01 and 02 that stands there; never from the proved library.
//
// Of the leaves it has the edges of p and of u32 added and multiplied pairwise; no byte, and one and two bytes, at the
// ends of UTF-8's rows, with document 01's and RFC 3629's texts; a word read at and past every place of up to seven
// bytes; 1,600 random cases, units and wires read into a store among them; and scans of 79 fixed labels, bad ones at
// the ends of blocks of ASCII among them, and of 120 random ones. Of fresh, allocate, set, set list, record, mint,
// equation, withdrawals, value and is it allocated it has document 01's examples, every count and argument at its limits,
// sets that are fresh, repeated or both, use counts that are wrong and use stores that are too long or too short, and 900
// random cases at widths 1 to 24, absurd records among them, with every number that a short store can bring about. Of
// ticket texts it has 72 fixed ones and 100 random ones, with every number that they can bring about. Of openings, calls
// and gates of relations on one allocator it has 120 fixed cases and 166 random ones, absurd allocators, numbers and
// quotas and what another relation has set among them; equations are left out there. Of scaled terms put as an equation,
// evaluate and append a step, permute, write and read SFRW it has 100 random cases each, and of gate, value in publics,
// heading, write and read SFRI and check 150 each, most at widths 1 to 3, sound and led astray; the writes with every
// number that a record, a store or an output of these sizes can bring about, and with every byte of the output; of gates
// besides 12 with right and wrong use counts. Of states behind a digest it has 96 fixed cases, every width and every
// question among them, and 80 random ones; of strict reads 66 fixed ones, each way to break the rule of wire 0 alone and
// with one of nine faults among them, and 80 random ones.
//
// Every case is a list of lists, so that one way of taking it apart and of comparing serves all calls. A line is
// printed for each operation, and last how many answers were replayed and how many are different. A fault of the sample,
// as a case that is cut off, counts as a difference.

#![tactic(auto)]

ghost use Rattle.std.specs.Prelude.{◌≤◌, IfOk, length};

mod answer;
mod given;
mod instances;
mod leaves;
mod operation;
mod relation;
mod sample;
mod shared;
mod tally;
mod terms;
mod traces;

use answer::Answer;
use operation::Operation;
use sample::{Case, Cases};
use std::io;
use std::io::Read;
use tally::Tally;

// The longest sample, in bytes.
const BYTES: usize = 1048576;

// The same in words.
const WORDS: usize = 262144;

// What the call of an operation answers. The store that it may write is lent; a call that is lent more of them compares
// these itself.
fn call(operation: Operation, case: &Case, first: &mut [u32]) -> Answer {
    match operation {
        Operation::AddUnit => leaves::add_unit(case),
        Operation::MulUnit => leaves::mul_unit(case),
        Operation::IsUtf8 => leaves::is_utf8(case),
        Operation::ReadU32 => leaves::read_u32(case),
        Operation::ReadUnits => leaves::read_units(case, first),
        Operation::ReadVars => leaves::read_vars(case, first),
        Operation::ScanUtf8 => leaves::scan_utf8(case),
        Operation::SetTickets => relation::set_tickets(case, first),
        Operation::NewRelation => relation::new_relation(case, first),
        Operation::AllocateVars => relation::allocate_vars(case, first),
        Operation::SetVar => relation::set_var(case, first),
        Operation::SetVars => relation::set_vars(case, first),
        Operation::AddPermutation => relation::add_permutation(case, first),
        Operation::AllocatePermutation => relation::allocate_permutation(case, first),
        Operation::AddEquation | Operation::AddScaled => terms::add_equation(case, first),
        Operation::ValueOf => relation::value_of(case),
        Operation::IsAllocated => relation::is_allocated(case),
        Operation::EvaluateStep => traces::evaluate_step(case, first),
        Operation::AppendStep => traces::append_step(case, first),
        Operation::WitnessToBytes => traces::witness_to_bytes(case),
        Operation::WitnessFromBytes => traces::witness_from_bytes(case, first),
        Operation::Permute => traces::permute(case, first),
        Operation::PermuteInverse => traces::permute_inverse(case, first),
        Operation::WithdrawQuery => relation::withdraw_query(case, first),
        Operation::WithdrawEquation => relation::withdraw_equation(case, first),
        Operation::OnAllocator => shared::call(case, first),
        Operation::Compile => instances::compile(case, first),
        Operation::InstanceToBytes => instances::instance_to_bytes(case),
        Operation::InstanceFromBytes => instances::instance_from_bytes(case, first),
        Operation::PublicValue => instances::public_value(case),
        Operation::Heading => instances::heading(case),
        Operation::IsWitnessValid => instances::is_witness_valid(case, first),
        Operation::StrictInstanceFromBytes => { instances::strict_instance_from_bytes(case, first) }
    }
}

// Does the case agree?
fn agrees(case: &Case) -> bool {
    let mut buffer = [0; sample::WORDS];
    let store = case.first();
    let first = store.lend(&mut buffer);
    let answer = call(case.operation(), case, first);
    case.answer() == Some(answer) && store.is_left(first)
}

// Every case in order, and the end mark behind the last: where it is not there, the sample is at fault, which counts as a case
// that differs.
fn replay(mut cases: Cases) -> Tally {
    let mut tally = Tally::new();
    for case in &mut cases {
        if agrees(&case) {
            tally.agrees(case.number());
        } else {
            tally.differs(case.place);
        }
    }
    if !cases.is_at_end() {
        tally.differs(cases.place());
    }
    tally
}

// The words that the bytes hold, at the front of a store.
fn take_words<'a>(bytes: &[u8], store: &'a mut [u32]) -> &'a [u32] {
    let (chunks, _) = bytes.as_chunks::<4>();
    for (word, chunk) in store.iter_mut().zip(chunks) {
        *word = u32::from_le_bytes(*chunk);
    }
    &store[..chunks.len().min(store.len())]
}

// Replays the sample, which begins with the names of its operations, and prints what came of it.
fn run(rt: &impl Print, words: &[u32], bytes: &[u8]) -> io::Result<()> {
    let mut cases = Cases::new(words, bytes);
    match cases.names() {
        Some(names) => replay(cases).print(rt, &names),
        None => Ok(()),
    }
}

// Reads until the buffer is full or the input ends; answers how many bytes stand at its front. (sfrlist has it too: a crate
// for a loop of two programs would be no plainer.)
fn read_full<R: Read>(from: &mut R, buffer: &mut [u8]) -> io::Result<usize>
    ensures { IfOk result (λ n. n ≤ length buffer.new) }
{
    // By hand: each turn goes on by as many bytes as the read gave, which is known only then.
    let mut done = 0;
    while done < buffer.len() {
        let n = from.read(&mut buffer[done..])?;
        if n == 0 {
            break;
        }
        done += n;
    }
    Ok(done)
}

// Takes the sample from standard input. The bytes of a name go on behind it, where they are 0.
fn start(
    rt: &(impl Input + Print),
    buffer: &mut [u8; BYTES],
    store: &mut [u32; WORDS],
) -> io::Result<()> {
    let n = read_full(&mut rt.reader(), buffer)?;
    run(rt, take_words(&buffer[..n], store), buffer)
}

// The stores are lent from here: of an array of a million bytes that stands in `start` itself the check finds no proof.
fn main(rt: HostRuntime) -> io::Result<()> {
    start(&rt, &mut [0; BYTES], &mut [0; WORDS])
}
