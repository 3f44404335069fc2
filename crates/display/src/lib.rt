// Strings and expansions as text in a lent buffer.
//
// From the `Display` of crates/bicycle_cliffords/src/pauli_string.rs and crates/bicycle_common/src/lib.rs of the Bicycle
// Architecture Compiler, which print to a formatter. Changed: written anew in Rattle, with contracts; the text goes to the
// front of a lent buffer, 9 where that is too short.
//
// Copyright contributors to the Bicycle Architecture Compiler project. Licensed under the Apache License, Version 2.0
// (see NOTICE).
#![tactic(auto)]

ghost use Rattle.std.specs.Prelude.{◌+◌, ◌<◌, ◌^◌, length};
ghost use Rattle.bicycle_common.specs.Instructions.{instruction_text};
ghost use Rattle.text.specs.Puts.{Put};
ghost use Rattle.text.specs.Fronts.{Written};
ghost use Rattle.pauli_string.specs.Strings.{qubits};
ghost use Rattle.pauli_string.specs.Answers.{printed};
ghost use Rattle.native_measurement.specs.Answers.{implementation_at};
ghost use Rattle.measurement.specs.Matrices.{side};
ghost use Rattle.compile.specs.Expansions.{rotation_instructions, expansion_text};
ghost use Rattle.display.specs.Texts.{displayed};

use bicycle_common::{BicycleISA, Refusal};
use native_measurement::NativeNumber;
use pauli_string::PauliString;
use text::{Out, Text};

// ---- instructions, one after another

fn put_instruction(out: &mut Out, i: BicycleISA)
    requires { out.old.at + length (instruction_text i) < 2 ^ 64 }
    ensures { Put out.old (instruction_text i) out.new }
{
    let t = i.display();
    out.put_bytes_unchecked(&t.bytes[..t.len]);
}

// Instructions with a space between each and the next.
#[derive(Clone, Copy)]
pub struct Expansion<'a>(pub &'a [BicycleISA]);

impl Text for Expansion<'_> {
    ghost text = { λ e. expansion_text e.0.now };

    fn put_unchecked(&self, out: &mut Out) {
        let [first, others @ ..] = self.0 else {
            return;
        };
        put_instruction(out, *first);
        for i in others {
            out.put_byte_unchecked(b' ');
            put_instruction(out, *i);
        }
    }
}

// ---- the calls

// The text of a string, qubit 11 first, in capitals: 4, then 9.
pub fn string(p: PauliString, out: &mut [u8]) -> Result<usize, Refusal>
    ensures { Written (printed qubits p.0) out.old result out.new }
{
    let letters = p.display()?;
    text::write_unchecked(&letters, out)
}

// The instructions of a native, with a space between each and the next: 11, then 9.
#[tactic(auto, using(crate::proofs::Texts::expansion_length))]
pub fn native_instructions(n: NativeNumber, out: &mut [u8]) -> Result<usize, Refusal>
    ensures { Written (displayed (implementation_at n.0)) out.old result out.new }
{
    let instructions = native_measurement::implementation(n)?;
    text::write_unchecked(&Expansion(&instructions), out)
}

// The instructions of a rotation by native n: 3, then 11 or 10; 9 where there is a text, and no room for it.
#[tactic(auto, using(crate::proofs::Texts::expansion_length))]
pub fn rotation_instructions(
    mx: &[u8],
    my: &[u8],
    n: NativeNumber,
    out: &mut [u8],
) -> Result<usize, Refusal>
    ensures { Written (displayed (rotation_instructions qubits side mx.now my.now n.0)) out.old result out.new }
{
    let instructions = compile::rotation_instructions(mx, my, n)?;
    text::write_unchecked(&Expansion(&instructions), out)
}
