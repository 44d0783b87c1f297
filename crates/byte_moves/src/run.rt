// A run of bytes, all of which are read before the first is written.
ghost use Rattle.std.specs.Prelude.{◌≡◌, ◌+◌, ◌≤◌, length};
ghost use Rattle.std.proofs.lemmas.List.Edits.{sets};
ghost use Rattle.wire.specs.Lists.{part};
ghost use Rattle.byte_moves.specs.Stages.{run};

// The bytes of a run: as many as two registers of x86-64 take.
pub(crate) const RUN: usize = 32;

// The run at `from` goes to `to`, wherever that is.
pub(crate) fn move_run(b: &mut [u8], from: usize, to: usize)
    requires { (from + run ≤ length b.old) × (to + run ≤ length b.old) }
    ensures { b.new ≡ sets b.old to (part b.old from run) }
{
    let end = from + RUN;
    let mut bytes = [0u8; RUN];
    byte_stores::put_at(&mut bytes, 0, &b[from..end]);
    byte_stores::put_at(b, to, &bytes);
}
