//! Telling a choice.
ghost use Rattle.std.specs.Prelude.{◌≡◌, ◌∷◌, [], OnOk, OnErr, IfErr};
ghost use Rattle.fg_io.specs.Faults.{Counts};
ghost use Rattle.fg_io.specs.Sink.{Gains, GainsPart};
ghost use Rattle.fg_plan.specs.Text.{choice_line};

use fg_io::{Fault, Sink, write_all, write_pieces};
use itoa::Buffer;

/// Writes the line of a choice: its columns and rows, or that there is none.
pub fn write_choice<K: Sink>(choice: Option<(u8, u8)>, out: &mut K) -> Result<(), Fault>
    ensures whole { OnOk result (Gains (K.written out.old) (choice_line choice) (K.written out.new)) }
    ensures part { OnErr result (GainsPart (K.written out.old) (choice_line choice)
        (K.written out.new)) }
    ensures fault { IfErr result (λ fault. fault ≡ Fault.Write) }
    ensures faults { Counts result [] ((K.faults out.old, K.faults out.new) ∷ []) }
{
    match choice {
        None => write_all(out, b"none\n"),
        Some((columns, rows)) => write_pieces(
            out,
            &[
                b"columns ",
                Buffer::new().format(columns).as_bytes(),
                b" rows ",
                Buffer::new().format(rows).as_bytes(),
                b"\n",
            ],
        ),
    }
}
