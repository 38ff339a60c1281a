// What a record is written of.
ghost use Rattle.std.specs.Prelude.{◌≡◌, ◌≤◌, ◌<◌, length};
ghost use Rattle.gid.specs.Refusals.{max_states, max_steps};

use gid::{Edge, Update};

// The marks of the states, and the listed steps: entry p of each of the three lists is of step p.
#[derive(Clone, Copy)]
pub struct Source<'a> {
    pub marks: &'a [u8],
    pub from: &'a [u16],
    pub to: &'a [u16],
    pub key: &'a [u8],
    pub ghost few_states: { length marks.now ≤ max_states },
    pub ghost few_steps: { length from.now ≤ max_steps },
    pub ghost a_target_each: { length to.now ≡ length from.now },
    pub ghost a_key_each: { length key.now ≡ length from.now },
}

impl Source<'_> {
    ghost use Rattle.record.specs.Text.{Within};
    ghost use Rattle.record.specs.declared.line.Form.TheVariants.{Keyed};
    ghost use Rattle.writer.specs.Order.{step_at};

    // A listed step.
    pub fn step(self, place: usize) -> Update
        requires { place < length self.from.now }
        ensures right { result ≡ step_at self.entry.from.now self.entry.to.now self.entry.key.now place }
        ensures within { Within Keyed result }
    {
        Update::Step {
            edge: Edge {
                from: usize::from(self.from[place]),
                to: usize::from(self.to[place]),
                key: usize::from(self.key[place]),
            },
        }
    }
}
