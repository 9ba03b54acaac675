//! The one text that reads as a bundle.
ghost use Rattle.std.specs.Prelude.{◌≡◌, ◌<◌, ◌≤◌, [], ◌∷◌, ◌++◌, length, map, replicate, codes, decimal, All, IfOk, OnOk};
ghost use Rattle.std.specs.List.{flat_map, enumerate_from};
ghost use Rattle.kz_model.specs.Grammar.Form.{Break, Declares};
ghost use Rattle.kz_model.specs.Grammar.Spelling.{numbered, seed_text, named_step_text, named_step_of, text_at, names_in, types_in, header_lines, section_lines, cpu_lines, turn_of, order_lines, bundle_text, IsSpelled, Spells};
ghost use Rattle.kz_model.specs.Text.Lines.{hex_bytes};
ghost use Rattle.kz_model.specs.Store.Traces.{AreNumbered};
ghost use Rattle.kz_bundle.specs.Printing.{lines_text, AreStepsWithin};

use kz_model::{Act, Bundle, Items, OrderLine, Seed, Trace, Types};
use kz_text::{push_decimal, push_hex};
use std::alloc::{AllocError, Global};

/// The one text that reads as this bundle.
pub fn print_bundle(alloc: Global, bundle: &Bundle) -> Result<Vec<u8>, AllocError>
    requires { IsSpelled bundle.now }
    ensures text { IfOk result (λ text. text.items ≡ bundle_text bundle.now) }
    ensures spelled { IfOk result (λ text. Spells text.items bundle.now) }
{
    let mut out = Vec::new(alloc);
    print_header(&mut out, bundle)?;
    print_types(&mut out, &bundle.types)?;
    print_sections(&mut out, bundle)?;
    print_order(&mut out, &bundle.order)?;
    out.extend_from_slice(b"end\n")?;
    Ok(out)
}

fn print_header(out: &mut Vec<u8>, bundle: &Bundle) -> Result<(), AllocError>
    ensures { OnOk result (out.new.items ≡ out.old.items ++ lines_text (header_lines bundle.now)) }
{
    print_setting(out, b"machine", bundle.machine)?;
    print_seed(out, bundle.seed)?;
    print_setting(out, b"cpus", bundle.cpus)?;
    print_setting(out, b"frames", bundle.frames)?;
    print_setting(out, b"pages", bundle.pages)?;
    print_setting(out, b"budget", bundle.budget)?;
    print_setting(out, b"magazine", bundle.magazine)?;
    print_setting(out, b"depot", bundle.depot)?;
    Ok(())
}

/// A line of a word and a number.
fn print_setting(out: &mut Vec<u8>, word: &[u8], number: u32) -> Result<(), AllocError>
    ensures { OnOk result (out.new.items ≡ out.old.items ++ (numbered word.now number ++ codes "\n")) }
{
    out.extend_from_slice(word)?;
    print_number(out, u64::from(number))?;
    out.extend_from_slice(b"\n")
}

fn print_seed(out: &mut Vec<u8>, seed: Seed) -> Result<(), AllocError>
    ensures { OnOk result (out.new.items ≡ out.old.items ++ (seed_text seed ++ codes "\n")) }
{
    out.extend_from_slice(b"seed")?;
    match seed {
        Seed::Plain => out.extend_from_slice(b" plain")?,
        Seed::Number(number) => print_number(out, number)?,
    }
    out.extend_from_slice(b"\n")
}

fn print_types(out: &mut Vec<u8>, types: &Types) -> Result<(), AllocError>
    ensures { OnOk result (out.new.items ≡ out.old.items ++ lines_text (map Declares types.now)) }
{
    for at in 0..types.len() {
        out.extend_from_slice(types.line(at))?;
        out.extend_from_slice(b"\n")?;
    }
    Ok(())
}

/// The section of each CPU.
fn print_sections(out: &mut Vec<u8>, bundle: &Bundle) -> Result<(), AllocError>
    requires rounds { 1 ≤ bundle.now.rounds }
    requires steps { All (AreStepsWithin bundle.now) bundle.now.traces }
    ensures { OnOk result (out.new.items
        ≡ out.old.items ++ lines_text (flat_map (cpu_lines bundle.now) (enumerate_from 0 bundle.now.traces))) }
{
    for (cpu, trace) in bundle.traces.as_slice().iter().enumerate() {
        out.extend_from_slice(b"cpu")?;
        print_number(out, cpu as u64)?;
        out.extend_from_slice(b"\n")?;
        print_steps(out, bundle, trace)?;
    }
    Ok(())
}

/// A CPU's steps, each behind the `--` lines up to its round.
fn print_steps(out: &mut Vec<u8>, bundle: &Bundle, trace: &Trace) -> Result<(), AllocError>
    requires rounds { 1 ≤ bundle.now.rounds }
    requires steps { AreStepsWithin bundle.now trace.now }
    ensures { OnOk result (out.new.items ≡ out.old.items ++ lines_text (section_lines bundle.now 0 trace.now)) }
{
    let mut round = 0;
    for at in 0..trace.len() {
        let step = trace.step(at);
        print_breaks(out, step.round.saturating_sub(round))?;
        print_act(out, bundle, &step.act)?;
        out.extend_from_slice(b"\n")?;
        round = step.round;
    }
    print_breaks(out, (bundle.rounds - 1).saturating_sub(round))
}

/// So many `--` lines.
fn print_breaks(out: &mut Vec<u8>, count: u32) -> Result<(), AllocError>
    ensures { OnOk result (out.new.items ≡ out.old.items ++ lines_text (replicate count Break)) }
{
    for _ in 0..count {
        out.extend_from_slice(b"--\n")?;
    }
    Ok(())
}

/// A step line without its end.
fn print_act(out: &mut Vec<u8>, bundle: &Bundle, act: &Act) -> Result<(), AllocError>
    requires { AreNumbered (length bundle.now.names) (length bundle.now.types) act.now }
    ensures { OnOk result (out.new.items
        ≡ out.old.items ++ named_step_text (named_step_of (names_in bundle.now) (types_in bundle.now) act.now)) }
{
    macro_rules! word {
        (name $name:ident) => {
            print_word(out, name_at(bundle, *$name))?
        };
        (of $of:ident) => {
            print_word(out, bundle.types.name(*$of as usize))?
        };
        (number $number:ident) => {
            print_number(out, u64::from(*$number))?
        };
        (hex $bytes:ident) => {
            print_hex(out, $bytes.as_slice())?
        };
    }
    macro_rules! said {
        ($letters:literal $($kind:ident($value:ident))*) => {{
            out.extend_from_slice($letters)?;
            $(word!($kind $value);)*
        }};
    }
    match act {
        Act::Alloc { name, of } => said!(b"a" name(name) of(of)),
        Act::AllocZero { name, of } => said!(b"z" name(name) of(of)),
        Act::Free { name, of: None } => said!(b"f" name(name)),
        Act::Free { name, of: Some(of) } => said!(b"f" name(name) of(of)),
        Act::Give { name, to } => said!(b"g" name(name) number(to)),
        Act::Take { name } => said!(b"t" name(name)),
        Act::Read { name, off, len } => said!(b"r" name(name) number(off) number(len)),
        Act::Write { name, off, bytes } => said!(b"w" name(name) number(off) hex(bytes)),
        Act::Flush { of } => said!(b"flush" of(of)),
        Act::Trim { of } => said!(b"trim" of(of)),
    }
    Ok(())
}

/// The text of the name of this number.
fn name_at(bundle: &Bundle, name: u32) -> &[u8]
    requires { name < length bundle.now.names }
    ensures { result.now ≡ text_at (names_in bundle.now) name }
{
    bundle.names.name(name as usize).as_slice()
}

/// The order section, where there is one.
fn print_order(out: &mut Vec<u8>, order: &Option<Items<OrderLine>>) -> Result<(), AllocError>
    ensures { OnOk result (out.new.items ≡ out.old.items ++ lines_text (order_lines order.now)) }
{
    match order {
        None => Ok(()),
        Some(turns) => {
            out.extend_from_slice(b"order\n")?;
            print_turns(out, turns.as_slice())
        }
    }
}

fn print_turns(out: &mut Vec<u8>, turns: &[OrderLine]) -> Result<(), AllocError>
    ensures { OnOk result (out.new.items ≡ out.old.items ++ lines_text (map turn_of turns.now)) }
{
    for turn in turns {
        print_turn(out, *turn)?;
    }
    Ok(())
}

fn print_turn(out: &mut Vec<u8>, turn: OrderLine) -> Result<(), AllocError>
    ensures { OnOk result (out.new.items ≡ out.old.items ++ lines_text (turn_of turn ∷ [])) }
{
    match turn {
        OrderLine::Cpu { cpu } => {
            push_decimal(out, u64::from(cpu))?;
            out.extend_from_slice(b"\n")
        }
        OrderLine::Round => out.extend_from_slice(b"--\n"),
    }
}

/// A space and the bytes, each as two digits.
fn print_hex(out: &mut Vec<u8>, bytes: &[u8]) -> Result<(), AllocError>
    ensures { OnOk result (out.new.items ≡ out.old.items ++ (codes " " ++ hex_bytes bytes.now)) }
{
    out.extend_from_slice(b" ")?;
    push_hex(out, bytes)
}

/// A space and a word.
fn print_word(out: &mut Vec<u8>, word: &[u8]) -> Result<(), AllocError>
    ensures { OnOk result (out.new.items ≡ out.old.items ++ (codes " " ++ word.now)) }
{
    out.extend_from_slice(b" ")?;
    out.extend_from_slice(word)
}

/// A space and a number.
fn print_number(out: &mut Vec<u8>, number: u64) -> Result<(), AllocError>
    ensures { OnOk result (out.new.items ≡ out.old.items ++ (codes " " ++ decimal number)) }
{
    out.extend_from_slice(b" ")?;
    push_decimal(out, number)
}
