// The listing of a plan: all that the program `plan` prints for any input.
//
// Added: the original prints no plans. The form is document 01's, under "Plan listing".
#![tactic(auto)]

ghost use Rattle.std.specs.Prelude.{◌≡◌, ℕ, [], ◌∷◌, ◌++◌, ◌+◌, ◌*◌, ◌<◌, ◌≤◌, ◌^◌, length, get_or, Ok};
ghost use Rattle.text.specs.Puts.{Put};
ghost use Rattle.text.specs.Fronts.{Written};
ghost use Rattle.text.specs.Decimals.{decimal};
ghost use Rattle.pauli_string.specs.Strings.{qubits};
ghost use Rattle.native_measurement.specs.Natives.{natives};
ghost use Rattle.natives.specs.Cells.{shown};
ghost use Rattle.compile.specs.Expansions.{expansion, expansion_text};
ghost use Rattle.reader.specs.Lines.{newline};
ghost use Rattle.reader.specs.Answers.{native0};
ghost use Rattle.listing.specs.Listings.{line_of, rotation_text, rotations_text, head_text, refusal_text, output};
ghost use Rattle.listing.specs.Answers.{Printable, listing_by};

use bicycle_common::{BicycleISA, Refusal};
use display::Expansion;
use measurement::Pair;
use native_measurement::NativeNumber;
use natives::Cells;
use pauli_string::PauliString;
use reader::StatedPlan;
use text::{Out, Text};

// ---- lines

// A name, a value and the line's end.
fn put_line<T: Text>(out: &mut Out, name: &[u8], value: &T)
    requires { out.old.at + length (name.now ++ T.text value.now ++ newline ∷ []) < 2 ^ 64 }
    ensures { Put out.old (name.now ++ T.text value.now ++ newline ∷ []) out.new }
{
    out.put_bytes_unchecked(name);
    value.put_unchecked(out);
    out.put_byte_unchecked(b'\n');
}

// A native's line, and the line of what it expands to, which is nothing of a refusal.
fn put_native<const N: usize>(
    out: &mut Out,
    name: &[u8],
    n: NativeNumber,
    instructions: Result<[BicycleISA; N], Refusal>,
)
    requires { out.old.at + length ((name.now ++ decimal n.0 ++ newline ∷ []) ++ line_of "expand=" (expansion_text (expansion instructions))) < 2 ^ 64 }
    ensures { Put out.old ((name.now ++ decimal n.0 ++ newline ∷ []) ++ line_of "expand=" (expansion_text (expansion instructions.entry))) out.new }
{
    put_line(out, name, &n.0);
    match instructions {
        Ok(all) => put_line(out, b"expand=", &Expansion(&all)),
        Err(_) => put_line(out, b"expand=", &Expansion(&[])),
    }
}

// ---- the listing

// Each native has two automorphism instructions; each rotation runs twice and the base once.
fn shifts(count: u16) -> u16
    requires { count ≤ 256 }
    ensures { result ≡ 2 * (2 * count + 1) }
{
    4 * count + 2
}

// What stands before the rotations, of the fields that `head_text` takes.
#[tactic(auto, unfolding(crate::specs::Listings::base_text))]
fn put_head(out: &mut Out, measures: PauliString, count: u16, base: NativeNumber)
    requires string { (measures.0 < 4 ^ qubits) × (count ≤ 256) }
    requires room { out.old.at + length (head_text measures.0 count (2 * (2 * count + 1)) base) < 2 ^ 64 }
    ensures { Put out.old (head_text measures.0 count (2 * (2 * count + 1)) base) out.new }
{
    put_line(out, b"measures=", &measures.display().unwrap());
    put_line(out, b"count=", &count);
    put_line(out, b"shifts=", &shifts(count));
    put_native(
        out,
        b"base=",
        base,
        native_measurement::implementation(base),
    );
}

// A plan, with the cells that hold its natives' strings.
#[derive(Clone, Copy)]
struct Listing<'a> {
    plan: &'a StatedPlan,
    cells: &'a Cells,
    ghost printable: { Printable plan.now },
}

impl Text for Listing<'_> {
    ghost text = { λ l. listing_by (shown l.cells.now.cells) l.plan.now };

    #[tactic(auto, unfolding(crate::specs::Listings::rotation_text))]
    fn put_unchecked(&self, out: &mut Out) {
        let plan = self.plan;
        // `as`: no `From` narrows, and that nothing is lost is proved
        put_head(out, plan.measures, plan.count as u16, plan.base);
        for n in &plan.rotations[..plan.count] {
            let p = reader::string_of_unchecked(*n, self.cells);
            put_native(out, b"rotation=", *n, compile::rotation_by_unchecked(*n, p));
        }
    }
}

// The number of a refusal. No length behind it, which the programs tell of 9: a listing has none.
#[derive(Clone, Copy)]
struct Refused(Refusal);

impl Text for Refused {
    ghost text = { λ r. refusal_text r.0 };

    fn put_unchecked(&self, out: &mut Out) {
        put_line(out, b"refused=", &u16::from(self.0.number()));
    }
}

// Reads the plan that the input states and writes its listing, or the number of its refusal, to the front of the buffer:
// 9 where the buffer is shorter than the text.
pub fn list(input: &[u8], out: &mut [u8]) -> Result<usize, Refusal>
    ensures { Written (Ok (output input.now)) out.old result out.new }
{
    match reader::read(input) {
        Ok(plan) => {
            let cells = natives::cells_unchecked(Pair {
                mx: &plan.pair.mx,
                my: &plan.pair.my,
            });
            let listing = Listing {
                plan: &plan,
                cells: &cells,
            };
            text::write_unchecked(&listing, out)
        }
        Err(r) => text::write_unchecked(&Refused(r), out),
    }
}
