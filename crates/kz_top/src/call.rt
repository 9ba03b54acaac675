//! The top call: the words, then the input or a made bundle, then the work, then the output.
ghost use Rattle.std.specs.Prelude.{◌≡◌, ◌≢◌, ◌⊎◌, ◌≤◌, ◌<◌, ◌↔◌, Bool, List, [], ℕ, Option, length, vec_len, IsTrue, Some};
ghost use Rattle.kz_text.specs.Streams.{Rose};
ghost use Rattle.kz_model.specs.declared.grammar.Refusal.{Refusal};
ghost use Rattle.kz_top.specs.declared.command.Command.{Command};
ghost use Rattle.kz_top.specs.declared.command.Command.TheVariants.{Replay, Make};
ghost use Rattle.kz_top.specs.Call.{Asks, AskNothing, ReadsInput, Gives, Refuses, most_bytes, too_long, TakesText, TakesFront, IsRefusalOf, IsKeptApart, IsMadeFor, IsFinished, IsWork, HasRead, Tells, status_line};

use crate::answer::answer;
use crate::command::{Command, command_of};
use crate::status::{Status, line_of};
use kz_make::make_bundle;
use kz_model::{Cause, Items, Refusal};
use kz_text::{InputFault, Sink, Source, read_all, write_whole};
use std::alloc::Global;

/// The most bytes that an input may have.
const MOST_BYTES: u64 = 33_554_432;

/// Reads the input whole, and writes to out the text that the words' command makes of the bundle that it spells. What
/// went wrong is one line on err.
///
/// `make N` reads no input: the bundle is the one that is made of the number N, so of its result the number alone
/// decides, out and want of memory.
///
/// Whatever order the bundle has, the report gives the steps of each zone the answers that the zone gives alone: of its
/// own steps in the order of its visits, and of what the supply answered it. Nothing that other zones did has a say in
/// it, no block is live twice, and no address is of two blocks, whatever was trimmed.
pub fn kzone_still<S: Source, K: Sink, E: Sink>(
    alloc: Global,
    words: &[Items<u8>],
    input: &mut S,
    out: &mut K,
    err: &mut E,
) -> Status
    ensures usage { (result ≡ Status.Usage) ↔ AskNothing words.now }
    ensures nothing_read { result ≡ Status.Usage → input.new ≡ input.old }
    ensures no_input { (number : ℕ) → Asks words.now (Make number) → input.new ≡ input.old }

    // The input was read to its end. But if it is too long one byte more was read than an input may have, and a failing
    // read or want of memory may leave some of it.
    ensures read { (command : Command) → Asks words.now command → ReadsInput command →
        HasRead result (S.rest input.old) (S.rest input.new) }

    // With Ok the input, or the text that is made of the number, spells a bundle, and out took the text that the
    // command makes of it.
    ensures wrote { result ≡ Status.Ok → (bytes : List ℕ) → S.rest input.old ≡ Some bytes →
        TakesText words.now bytes (K.taken out.old) (K.taken out.new) }
    ensures made { result ≡ Status.Ok → (number : ℕ) → Asks words.now (Make number) →
        TakesText words.now [] (K.taken out.old) (K.taken out.new) }

    // The run that the report tells keeps its zones apart.
    ensures isolated { result ≡ Status.Ok → Asks words.now Replay → (bytes : List ℕ) → S.rest input.old ≡ Some bytes →
        IsKeptApart bytes }

    // A refusal is the input's first fault, or says that the input is too long.
    ensures refused { (refusal : Refusal) → result ≡ Status.Refused refusal → (bytes : List ℕ) → S.rest input.old
        ≡ Some bytes → IsRefusalOf words.now bytes refusal }
    ensures made_not_refused { (number : ℕ) (refusal : Refusal) → Asks words.now (Make number) →
        result ≢ Status.Refused refusal }

    // A fault has risen its count.
    ensures read_fault { result ≡ Status.ReadFault → Rose (S.faults input.old) (S.faults input.new) }
    ensures made_not_read { (number : ℕ) → Asks words.now (Make number) → result ≢ Status.ReadFault }
    ensures write_fault { result ≡ Status.WriteFault → Rose (K.faults out.old) (K.faults out.new) }
    ensures front { result ≡ Status.WriteFault → (bytes : List ℕ) → S.rest input.old ≡ Some bytes →
        TakesFront words.now bytes (K.taken out.old) (K.taken out.new) }
    ensures made_front { result ≡ Status.WriteFault → (number : ℕ) → Asks words.now (Make number) →
        TakesFront words.now [] (K.taken out.old) (K.taken out.new) }
    ensures later { S.faults input.old ≤ S.faults input.new }

    // Nothing is written before the text is whole.
    ensures nothing { result ≢ Status.Ok → result ≢ Status.WriteFault → out.new ≡ out.old }

    // Where no count of faults rose, the words and the input alone decide, unless memory is wanting.
    ensures completes { (command : Command) (bytes text : List ℕ) → Asks words.now command → S.rest input.old
        ≡ Some bytes → length bytes ≤ most_bytes → Gives command bytes text →
        (Rose (S.faults input.old) (S.faults input.new) → ⊥) → (Rose (K.faults out.old) (K.faults out.new) → ⊥) →
        (result ≡ Status.Ok) ⊎ (result ≡ Status.Memory) }
    ensures made_completes { (number : ℕ) → Asks words.now (Make number) →
        (Rose (K.faults out.old) (K.faults out.new) → ⊥) → (result ≡ Status.Ok) ⊎ (result ≡ Status.Memory) }
    ensures refuses { (command : Command) (bytes : List ℕ) (refusal : Refusal) → Asks words.now command →
        S.rest input.old ≡ Some bytes → length bytes ≤ most_bytes → Refuses command bytes refusal →
        (Rose (S.faults input.old) (S.faults input.new) → ⊥) → (result ≡ Status.Refused refusal)
        ⊎ (result ≡ Status.Memory) }
    ensures limits { (command : Command) (bytes : List ℕ) → Asks words.now command → ReadsInput command →
        S.rest input.old ≡ Some bytes → most_bytes < length bytes →
        (Rose (S.faults input.old) (S.faults input.new) → ⊥) → (result ≡ Status.Refused too_long)
        ⊎ (result ≡ Status.Memory) }

    // A sure source and a sink with sure room don't fail.
    ensures sure_input { IsTrue (S.is_sure input.old) → (result ≢ Status.ReadFault) ×
        (S.faults input.new ≡ S.faults input.old) }
    ensures sure_out { (command : Command) (bytes text : List ℕ) → Asks words.now command → S.rest input.old
        ≡ Some bytes → Gives command bytes text → length text ≤ K.sure_room out.old →
        (result ≢ Status.WriteFault) × (K.faults out.new ≡ K.faults out.old) }
    ensures made_sure_out { (number : ℕ) (text : List ℕ) → Asks words.now (Make number) → Gives (Make number) [] text →
        length text ≤ K.sure_room out.old →
        (result ≢ Status.WriteFault) × (K.faults out.new ≡ K.faults out.old) }

    // The line on err.
    ensures told { result ≢ Status.Ok →
        Tells (E.taken err.old) (E.taken err.new) (E.faults err.old) (E.faults err.new) (status_line result) }
    ensures silent { result ≡ Status.Ok → err.new ≡ err.old }
{
    let status = work(alloc, words, input, out);
    tell(err, status);
    status
}

/// The work of the top call, up to the line on err.
fn work<S: Source, K: Sink>(
    alloc: Global,
    words: &[Items<u8>],
    input: &mut S,
    out: &mut K,
) -> Status
    ensures usage { (result ≡ Status.Usage) ↔ AskNothing words.now }
    ensures nothing_read { result ≡ Status.Usage → input.new ≡ input.old }
    ensures no_input { (number : ℕ) → Asks words.now (Make number) → input.new ≡ input.old }
    ensures read { (command : Command) → Asks words.now command → ReadsInput command →
        HasRead result (S.rest input.old) (S.rest input.new) }
    ensures nothing { result ≢ Status.Ok → result ≢ Status.WriteFault → out.new ≡ out.old }
    ensures done { IsWork words.now (S.rest input.old) (S.faults input.old) (S.faults input.new) (S.is_sure input.old)
        (K.taken out.old) (K.taken out.new) (K.faults out.old) (K.faults out.new) (K.sure_room out.old) result }
{
    match command_of(words) {
        None => Status::Usage,
        Some(Command::Plan) => work_on_input(alloc, Command::Plan, input, out),
        Some(Command::Replay) => work_on_input(alloc, Command::Replay, input, out),
        Some(Command::Make { number }) => work_on_made(alloc, number, out),
    }
}

/// The work of a command that takes the bundle that the input spells.
fn work_on_input<S: Source, K: Sink>(
    alloc: Global,
    command: Command,
    input: &mut S,
    out: &mut K,
) -> Status
    requires { ReadsInput command }
    ensures not_usage { result ≢ Status.Usage }
    ensures read { HasRead result (S.rest input.old) (S.rest input.new) }
    ensures nothing { result ≢ Status.Ok → result ≢ Status.WriteFault → out.new ≡ out.old }
    ensures done { (words : List (List ℕ)) → Asks words command →
        IsWork words (S.rest input.old) (S.faults input.old) (S.faults input.new) (S.is_sure input.old)
        (K.taken out.old) (K.taken out.new) (K.faults out.old) (K.faults out.new) (K.sure_room out.old) result }
{
    match read_all(alloc, input, MOST_BYTES) {
        Err(InputFault::ReadFault) => Status::ReadFault,
        Err(InputFault::Memory) => Status::Memory,
        Err(InputFault::TooLong { .. }) => Status::Refused(Refusal {
            line: 0,
            cause: Cause::TooLong,
        }),
        Ok(bytes) => finish(alloc, command, bytes, out),
    }
}

/// The work of `make` with a number, whatever the input tells.
fn work_on_made<K: Sink>(alloc: Global, number: u64, out: &mut K) -> Status
    ensures not_usage { result ≢ Status.Usage }
    ensures nothing { result ≢ Status.Ok → result ≢ Status.WriteFault → out.new ≡ out.old }
    ensures done { (words : List (List ℕ)) (rest : Option (List ℕ)) (faults : ℕ) (is_sure : Bool) →
        Asks words (Make number) → IsWork words rest faults faults is_sure
        (K.taken out.old) (K.taken out.new) (K.faults out.old) (K.faults out.new) (K.sure_room out.old) result }
{
    match make_bundle(alloc, number) {
        Err(_) => Status::Memory,
        Ok(bytes) => finish(alloc, Command::Make { number }, bytes, out),
    }
}

/// Writes to out the text that a command makes of the bundle that these bytes spell.
fn finish<K: Sink>(alloc: Global, command: Command, bytes: Vec<u8>, out: &mut K) -> Status
    requires few { vec_len bytes ≤ 33554432 }
    requires made { IsMadeFor command bytes.items }
    ensures nothing { result ≢ Status.Ok → result ≢ Status.WriteFault → out.new ≡ out.old }
    ensures done { IsFinished command bytes.items (K.taken out.old) (K.taken out.new) (K.faults out.old)
        (K.faults out.new) (K.sure_room out.old) result }
{
    match answer(alloc, command, bytes) {
        Err(_) => Status::Memory,
        Ok(Err(refusal)) => Status::Refused(refusal),
        Ok(Ok(text)) => match write_whole(out, text.as_slice()) {
            Ok(()) => Status::Ok,
            Err(_) => Status::WriteFault,
        },
    }
}

/// Writes the line of a status that isn't Ok.
fn tell<E: Sink>(err: &mut E, status: Status)
    ensures told { status ≢ Status.Ok →
        Tells (E.taken err.old) (E.taken err.new) (E.faults err.old) (E.faults err.new) (status_line status) }
    ensures silent { status ≡ Status.Ok → err.new ≡ err.old }
{
    match status {
        Status::Ok => {}
        _ => {
            let line = line_of(status);
            let _ = write_whole(err, line.as_slice());
        }
    }
}
