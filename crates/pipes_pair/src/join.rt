// An operator that joins the elements of two ports.
ghost use Rattle.std.specs.Prelude.{◌≡◌, ◌<◌, ◌+◌, ◌≤◌, [], ◌∷◌, ◌++◌, List, IfOk, OnOk, OnErr};
ghost use Rattle.std.specs.Prelude.{IsErr};
ghost use Rattle.std.specs.Prelude.{true, false};
ghost use Rattle.std.specs.Bool.{OnTrue};
ghost use Rattle.pipes_stream.specs.declared.message.Message.{Message as Sent};
ghost use Rattle.pipes_stream.specs.Lawful.{no_messages, Takes};
ghost use Rattle.pipes_plan.specs.PlanKinds.{IsTyped};
ghost use Rattle.pipes_pair.specs.Tasks.{join_task};
ghost use Rattle.pipes_pair.specs.Joins.{JoinSends, JoinStands, both_ended, candidates, lower_beat};
ghost use Rattle.pipes_pair.specs.Joins.{matching_task};

use crate::columns::{left_columns, right_columns};
use crate::side::{Side, admit};
use pipes_plan::{Expr, Pairs};
use pipes_stream::{Message, Operator, Watch};
use pipes_sweep::{Area, Hold, Steps, send_due};
use pipes_time::Memory;
use pipes_tuple::Schema;
use std::alloc::Global;
use std::marker::Brand;
use std::sync::ledger::{Blank, Ledger};

// Which rows meet, and the schemas of both sides.
#[derive(Drop)]
pub(crate) struct Matching {
    pairs: Pairs,
    condition: Expr,
    left: Schema,
    right: Schema,
}

/// Sends, for each element of the left port and each of the right whose rows meet while both are
/// valid, the concatenation of their rows over the instants of both: the symmetric join over two
/// sweep areas of Krämer and Seeger (TODS 2009). Port 0 is the left input.
#[derive(Drop)]
pub struct Join {
    alloc: Global,
    matching: Matching,
    left: Side,
    right: Side,
    hold: Hold,
    failed: bool,
}

impl Join {
    ghost use Rattle.pipes_plan.specs.declared.plan.Plan.TheVariants as plan;

    /// A join by these pairs and this condition, of tuples of these schemas.
    pub fn new(
        alloc: Global,
        pairs: Pairs,
        condition: Expr,
        left: Schema,
        right: Schema,
    ) -> Result<Join, Memory>
        requires { IsTyped (plan.Join pairs condition (plan.Source 0) (plan.Source 1))
            (left ∷ right ∷ []) }
        ensures task { IfOk result (λ j. ⟦<Join as Operator>⟧.task j
            ≡ join_task pairs condition left right) }
        ensures stands { IfOk result (λ j. ⟦<Join as Operator>⟧.stands j no_messages []) }
    {
        let left_cols = left_columns(alloc, &pairs)?;
        let right_cols = right_columns(alloc, &pairs)?;
        let left_area = Area::new(alloc, left_cols);
        let right_area = Area::new(alloc, right_cols);
        let left_watch = Watch::new();
        let right_watch = Watch::new();
        let hold = Hold::new(alloc);
        Ok(Join {
            alloc,
            matching: Matching {
                pairs,
                condition,
                left,
                right,
            },
            left: Side {
                watch: left_watch,
                area: left_area,
            },
            right: Side {
                watch: right_watch,
                area: right_area,
            },
            hold,
            failed: false,
        })
    }

    // The lower heartbeat.
    fn least(&self) -> u64
        ensures { result ≡ lower_beat self.now }
    {
        self.left.watch.beat_now().min(self.right.watch.beat_now())
    }

    // Whether both ports have ended.
    fn has_ended(&self) -> bool
        ensures { result ≡ both_ended self.now }
    {
        if !self.left.watch.is_ended() {
            return false;
        }
        self.right.watch.is_ended()
    }

    // Removes what has ended from both areas, and sends what is due and how far that is; the
    // heartbeat before was `known`.
    fn send(&mut self, known: u64, out: &mut Vec<Message>) -> Result<(), Memory>
        ensures sends { OnOk result
            (JoinSends self.old self.new known out.old.items out.new.items) }
        ensures same { self.new.matching ≡ self.old.matching }
        ensures grows { (more : List Sent) × (out.new.items ≡ out.old.items ++ more) }
    {
        let now = self.least();
        let ended = self.has_ended();
        let _left_gone = self.left.area.purge(self.right.watch.beat_now());
        let _right_gone = self.right.area.purge(self.left.watch.beat_now());
        send_due(self.alloc, &mut self.hold, known, now, ended, out)?;
        Ok(())
    }

    fn take_left<L: Ledger>(
        &mut self,
        message: Message,
        out: &mut Vec<Message>,
        steps: &mut Steps<L>,
    ) -> Result<(), Memory>
        ensures takes { OnOk result (Takes (matching_task self.old.matching) (JoinStands self.old)
            (JoinStands self.new) 0 message out.old.items out.new.items) }
        ensures goes_on { OnOk result (self.new.failed ≡ self.old.failed) }
        ensures same { self.new.matching ≡ self.old.matching }
        ensures grows { (more : List Sent) × (out.new.items ≡ out.old.items ++ more) }
        ensures steps { steps.new ≤ steps.old + candidates self.old 0 message }
    {
        let known = self.least();
        admit(
            &self.matching.condition,
            true,
            message,
            &mut self.left,
            &self.right,
            &mut self.hold,
            steps,
        )?;
        self.send(known, out)?;
        Ok(())
    }

    fn take_right<L: Ledger>(
        &mut self,
        message: Message,
        out: &mut Vec<Message>,
        steps: &mut Steps<L>,
    ) -> Result<(), Memory>
        ensures takes { OnOk result (Takes (matching_task self.old.matching) (JoinStands self.old)
            (JoinStands self.new) 1 message out.old.items out.new.items) }
        ensures goes_on { OnOk result (self.new.failed ≡ self.old.failed) }
        ensures same { self.new.matching ≡ self.old.matching }
        ensures grows { (more : List Sent) × (out.new.items ≡ out.old.items ++ more) }
        ensures steps { steps.new ≤ steps.old + candidates self.old 1 message }
    {
        let known = self.least();
        admit(
            &self.matching.condition,
            false,
            message,
            &mut self.right,
            &self.left,
            &mut self.hold,
            steps,
        )?;
        self.send(known, out)?;
        Ok(())
    }

    fn take_at<L: Ledger>(
        &mut self,
        port: u32,
        message: Message,
        out: &mut Vec<Message>,
        steps: &mut Steps<L>,
    ) -> Result<(), Memory>
        requires { port < 2 }
        ensures takes { OnOk result (Takes (matching_task self.old.matching) (JoinStands self.old)
            (JoinStands self.new) port message out.old.items out.new.items) }
        ensures goes_on { OnOk result (self.new.failed ≡ self.old.failed) }
        ensures same { self.new.matching ≡ self.old.matching }
        ensures grows { (more : List Sent) × (out.new.items ≡ out.old.items ++ more) }
        ensures steps { steps.new ≤ steps.old + candidates self.old port message }
    {
        if port == 0 {
            self.take_left(message, out, steps)
        } else {
            self.take_right(message, out, steps)
        }
    }

    /// Takes a message as [`Operator::take`] does, in at most as many steps as the other side has
    /// elements of the key of the message's element; a heartbeat and the end make none.
    pub fn take_in_steps<L: Ledger>(
        &mut self,
        port: u32,
        message: Message,
        out: &mut Vec<Message>,
        steps: &mut Steps<L>,
    ) -> Result<(), Memory>
        requires { port < 2 }
        ensures same { self.new.matching ≡ self.old.matching }
        ensures takes { OnOk result (Takes (matching_task self.old.matching) (JoinStands self.old)
            (JoinStands self.new) port message out.old.items out.new.items) }
        ensures memory { OnErr result (out.new.items ≡ out.old.items) }
        ensures fails { OnErr result (self.new.failed ≡ true) }
        ensures stays_failed { OnTrue self.old.failed (IsErr result) }
        ensures goes_on { OnOk result (self.new.failed ≡ false) }
        ensures steps { steps.new ≤ steps.old + candidates self.old port message }
    {
        if self.failed {
            return Err(Memory);
        }
        let before = out.len();
        match self.take_at(port, message, out, steps) {
            Ok(()) => Ok(()),
            Err(fault) => {
                out.truncate(before);
                self.failed = true;
                Err(fault)
            }
        }
    }

    // The same, with a ledger whose steps nobody reads.
    fn take_with<L: Ledger>(
        &mut self,
        port: u32,
        message: Message,
        out: &mut Vec<Message>,
        blank: Blank,
    ) -> Result<(), Memory>
        requires port { port < 2 }
        requires name { blank.name ≡ L.name }
        requires parts { blank.parts ≡ L.parts }
        requires some { 0 < blank.parts }
        ensures same { self.new.matching ≡ self.old.matching }
        ensures takes { OnOk result (Takes (matching_task self.old.matching) (JoinStands self.old)
            (JoinStands self.new) port message out.old.items out.new.items) }
        ensures memory { OnErr result (out.new.items ≡ out.old.items) }
        ensures fails { OnErr result (self.new.failed ≡ true) }
        ensures stays_failed { OnTrue self.old.failed (IsErr result) }
        ensures goes_on { OnOk result (self.new.failed ≡ false) }
    {
        let mut steps: Steps<L> = Steps::new(blank);
        self.take_in_steps(port, message, out, &mut steps)
    }
}

impl Operator for Join {
    ghost use Rattle.std.specs.Prelude.{length, ◌+◌};
    ghost use Rattle.pipes_pair.specs.Joins.{JoinStands, matching_task};
    ghost use Rattle.pipes_pair.specs.JoinLaw.{join_lawful};

    ghost task = { λ j. matching_task j.matching };

    ghost stands = { JoinStands };

    ghost failed = { λ j. j.failed };

    ghost held_count = { λ j. length j.left.area.elems + length j.right.area.elems };

    ghost lawful = { join_lawful };

    fn ports(&self) -> u32 {
        2
    }

    fn take(&mut self, port: u32, message: Message, out: &mut Vec<Message>) -> Result<(), Memory> {
        self.take_with::<Brand>(port, message, out, Blank::new(1))
    }

    fn beat_now(&self) -> u64 {
        self.least()
    }

    fn held(&self) -> u64 {
        (self.left.area.len() as u64).saturating_add(self.right.area.len() as u64)
    }
}
