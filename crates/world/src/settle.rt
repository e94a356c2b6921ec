ghost use Rattle.std.specs.Prelude.{◌≡◌, ℕ, ◌<◌, ◌≤◌, ◌+◌, length, true, IfOk};
ghost use Rattle.fission_ids.specs.declared.context.ContextId.{ContextId};
ghost use Rattle.field_table.specs.declared.field.Field.{Field};
ghost use Rattle.field_rules.specs.RuleBounds.{bounds_of};
ghost use Rattle.model.specs.Settling.{heard_by, taken_by, round, settled, weight, IsServed, Extends};
ghost use Rattle.model.specs.View.{base, point, is_honest};
ghost use Rattle.world.specs.Stands.{most_entries};

use crate::world::World;
use field_rules::Rules;
use fission_ids::{OutOfMemory, ProcId};
use journal::Step;

impl World {
    /// Delivers all that waits, as the rules judge it, process by process and round by round, until a round
    /// does nothing. No base and no point of an honest process falls by it. An error says that memory is
    /// wanting, and then nothing of the world is left.
    pub fn settle(self, rules: &Rules) -> Result<World, OutOfMemory>
        requires { length self.journal + weight self < most_entries }
        ensures settled { IfOk result (λ w. w ≡ settled (bounds_of rules.now) self) }
        ensures served { IfOk result (λ w. (p : ℕ) → p < length self.config.types → IsServed p w) }
        ensures extends { IfOk result (λ w. Extends self.journal w.journal) }
        ensures base { IfOk result (λ w. (p : ℕ) (x : ContextId) (f : Field) → p < length self.config.types →
            is_honest w.config p w.journal ≡ true →
            base self.config p x f self.journal ≤ base w.config p x f w.journal) }
        ensures point { IfOk result (λ w. (p : ℕ) (x : ContextId) (f : Field) → p < length self.config.types →
            is_honest w.config p w.journal ≡ true →
            point self.config p x f self.journal ≤ point w.config p x f w.journal) }
    {
        self.fits();
        let mut world = self;
        'rounds: loop {
            let before = world.journal().entries().len();
            world = world.go_round(rules)?;
            if world.journal().entries().len() == before {
                return Ok(world);
            }
        }
    }

    // One round over all processes.
    fn go_round(self, rules: &Rules) -> Result<World, OutOfMemory>
        requires { length self.journal + weight self < most_entries }
        ensures { IfOk result (λ w. w ≡ round (bounds_of rules.now) self) }
    {
        self.fits();
        let count = self.count();
        let mut world = self;
        for p in 0..count {
            world = world.serve(rules, ProcId(p as u8))?;
        }
        Ok(world)
    }

    // The parent hears process p, and then the process takes, where anything waits.
    fn serve(self, rules: &Rules, p: ProcId) -> Result<World, OutOfMemory>
        requires process { p.0 < length self.config.types }
        requires room { length self.journal + weight self < most_entries }
        ensures { IfOk result (λ w. w ≡
            taken_by (bounds_of rules.now) p.0 (heard_by (bounds_of rules.now) p.0 self)) }
    {
        self.fits();
        self.hear_waiting(rules, p)?.take_waiting(rules, p)
    }

    // The parent hears what waited first from process p, if anything waits.
    fn hear_waiting(self, rules: &Rules, p: ProcId) -> Result<World, OutOfMemory>
        requires process { p.0 < length self.config.types }
        requires room { length self.journal + weight self < most_entries }
        ensures { IfOk result (λ w. w ≡ heard_by (bounds_of rules.now) p.0 self) }
    {
        if self.waits_up(p) {
            self.step(rules, Step::Hear { p })
        } else {
            Ok(self)
        }
    }

    // Process p takes what waited first, if it runs and anything waits.
    fn take_waiting(self, rules: &Rules, p: ProcId) -> Result<World, OutOfMemory>
        requires process { p.0 < length self.config.types }
        requires room { length self.journal + weight self < most_entries }
        ensures { IfOk result (λ w. w ≡ taken_by (bounds_of rules.now) p.0 self) }
    {
        if self.can_take(p) {
            self.step(rules, Step::Take { p })
        } else {
            Ok(self)
        }
    }
}
