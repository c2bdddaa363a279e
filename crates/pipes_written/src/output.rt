// What a run has written so far.
ghost use Rattle.std.specs.Prelude.{◌≡◌, ◌≤◌, ◌<◌, ◌+◌, ◌++◌, ◌∷◌, [], ℕ, List, take, vec_len};
ghost use Rattle.std.specs.Prelude.{OnOk, OnErr, option_to_list};
ghost use Rattle.pipes_time.specs.Interval.{closed};
ghost use Rattle.pipes_tuple.specs.declared.value.Kind.{Kind};
ghost use Rattle.pipes_stream.specs.declared.message.Message.{Message as Sent};
ghost use Rattle.pipes_stream.specs.Progress.{Progress};
ghost use Rattle.pipes_stream.specs.Lists.{after, elements};
ghost use Rattle.pipes_window.specs.declared.item.Item.{Item};
ghost use Rattle.pipes_query.specs.declared.query.Query.{Query};
ghost use Rattle.pipes_output.specs.declared.entry.Entry.{Entry as Line};
ghost use Rattle.pipes_semantics.specs.Answer.{answer, schema_of};
ghost use Rattle.pipes_semantics.specs.Right.{Final, Right};
ghost use Rattle.pipes_written.specs.Written.{IsWritten, Continues, Answers, results_of};
ghost use Rattle.pipes_written.specs.Made.{last_entry};

use crate::entries::Entries;
use pipes_output::Entry;
use pipes_stream::{Elem, Message};
use pipes_time::{CLOSED, Memory};
use std::alloc::Global;
use std::mem;

/// The entries that a run has made, and how far its output has come.
#[derive(Drop)]
pub struct Output {
    // those that were not taken yet
    pub(crate) entries: Vec<Entry>,
    pub(crate) beat: u64,
}

// The heartbeat after a message.
fn level(message: &Message) -> u64
    ensures { (p : Progress) → result ≡ (after p message.now).beat }
{
    match message {
        Message::Elem(elem) => elem.span.start(),
        Message::Beat(at) => *at,
        Message::End => CLOSED,
    }
}

// The element of a message, if it is one.
fn element(message: Message) -> Option<Elem>
    ensures { option_to_list result ≡ elements (message ∷ []) }
{
    match message {
        Message::Elem(elem) => Some(elem),
        Message::Beat(_) => None,
        Message::End => None,
    }
}

// The entry at the end of a run.
fn last(stopped: bool) -> Entry
    ensures { result ≡ last_entry stopped }
{
    if stopped {
        Entry::Stopped
    } else {
        Entry::Ended
    }
}

impl Output {
    ghost use Rattle.pipes_written.specs.Made.{Made, Adds, HasRoom, TellsMove, drained};

    /// Nothing was written yet.
    pub fn new(alloc: Global) -> Output
        ensures none { result.entries.items ≡ [] }
        ensures start { result.beat ≡ 0 }
        ensures written { (kinds : List Kind) (answer : Answers)
            → IsWritten kinds answer result.beat [] }
    {
        Output {
            entries: Vec::new(alloc),
            beat: 0,
        }
    }

    // Appends the result of a message.
    fn push(&mut self, message: Message) -> Result<(), Memory>
        ensures made { OnOk result (Made self.old self.new (message ∷ [])) }
        ensures memory { OnErr result (self.new.entries.items ≡ self.old.entries.items) }
    {
        let beat = level(&message);
        if let Some(elem) = element(message) {
            self.entries.push(Entry::Result(elem))?;
        }
        self.beat = beat;
        Ok(())
    }

    // Appends the results of all these messages, and makes room.
    fn push_all(&mut self, sent: &mut Vec<Message>, room: usize) -> Result<(), Memory>
        ensures made { OnOk result (Made self.old self.new sent.old.items) }
        ensures taken { OnOk result (sent.new.items ≡ []) }
        ensures room { OnOk result (HasRoom self.new room) }
        ensures memory { OnErr result (take (vec_len self.old.entries) self.new.entries.items
            ≡ self.old.entries.items) }
    {
        for message in sent.drain(..) {
            self.push(message)?;
        }
        self.entries.reserve(room)?;
        Ok(())
    }

    /// Takes all these messages, which come to the output: appends a result for each element, in
    /// order. There is room for so many more entries then. Out of memory the entries and the
    /// heartbeat are as they were.
    pub fn write(&mut self, sent: &mut Vec<Message>, room: usize) -> Result<(), Memory>
        ensures made { OnOk result (Made self.old self.new sent.old.items) }
        ensures taken { OnOk result (sent.new.items ≡ []) }
        ensures room { OnOk result (HasRoom self.new room) }
        ensures written { OnOk result ((kinds : List Kind) (answer : Answers) (entries : List Line)
            → IsWritten kinds answer self.old.beat entries
            → Continues kinds answer self.old.beat entries sent.old.items
            → IsWritten kinds answer self.new.beat (entries ++ results_of sent.old.items)) }
        ensures memory { OnErr result (Adds self.old self.new []) }
    {
        let before = self.entries.len();
        let beat = self.beat;
        match self.push_all(sent, room) {
            Ok(()) => Ok(()),
            Err(fault) => {
                self.entries.truncate(before);
                self.beat = beat;
                Err(fault)
            }
        }
    }

    /// Tells the heartbeat of the output, and that a drain is done with the inputs at this
    /// heartbeat.
    pub fn drain(&mut self, inputs: u64)
        requires { HasRoom self.old 2 }
        ensures adds { Adds self.old self.new (drained inputs self.old.beat) }
        ensures written { (kinds : List Kind) (answer : Answers) (entries : List Line)
            → IsWritten kinds answer self.old.beat entries
            → IsWritten kinds answer self.new.beat (entries ++ drained inputs self.old.beat) }
    {
        self.entries.push_reserved(Entry::Beat(self.beat));
        self.entries.push_reserved(Entry::Drained {
            inputs,
            output: self.beat,
        });
    }

    /// Makes room for so many more entries.
    pub fn reserve(&mut self, room: usize) -> Result<(), Memory>
        ensures room { OnOk result (HasRoom self.new room) }
        ensures adds { Adds self.old self.new [] }
    {
        self.entries.reserve(room)?;
        Ok(())
    }

    /// Tells of a migration: the reply to what was asked for, that it is idle, or that it is over.
    pub fn tell(&mut self, entry: Entry)
        requires room { HasRoom self.old 1 }
        requires of_move { TellsMove entry }
        ensures adds { Adds self.old self.new (entry ∷ []) }
        ensures written { (kinds : List Kind) (answer : Answers) (entries : List Line)
            → IsWritten kinds answer self.old.beat entries
            → IsWritten kinds answer self.new.beat (entries ++ entry ∷ []) }
        ensures left { (n : ℕ) → HasRoom self.old (n + 1) → HasRoom self.new n }
    {
        self.entries.push_reserved(entry);
    }

    /// Tells that the run has ended, or was stopped.
    pub fn end(&mut self, stopped: bool)
        requires { HasRoom self.old 1 }
        ensures adds { Adds self.old self.new (last_entry stopped ∷ []) }
        ensures written { (kinds : List Kind) (answer : Answers) (entries : List Line)
            → IsWritten kinds answer self.old.beat entries
            → IsWritten kinds answer self.new.beat (entries ++ last_entry stopped ∷ []) }
    {
        self.entries.push_reserved(last(stopped));
    }

    /// Where entries were written until the output had come this far, they are final, and right
    /// once it has ended: a law, and nothing to run.
    pub fn tells(&self)
        ensures order { (query : Query) (items : List (List Item)) (entries : List Line)
            → IsWritten (schema_of query) (answer query items) self.now.beat entries
            → Final query items entries }
        ensures whole { (query : Query) (items : List (List Item)) (entries : List Line)
            → IsWritten (schema_of query) (answer query items) self.now.beat entries
            → self.now.beat ≡ closed → Right query items entries }
    {}

    /// The entries that were not taken yet.
    pub fn take_entries(&mut self) -> Entries
        ensures taken { result ≡ self.old.entries.items }
        ensures none { self.new.entries.items ≡ [] }
        ensures beat { self.new.beat ≡ self.old.beat }
    {
        let alloc = *self.entries.allocator();
        Entries {
            list: mem::replace(&mut self.entries, Vec::new(alloc)),
        }
    }

    /// How far the output has come: no later result starts below.
    pub fn beat_now(&self) -> u64
        ensures { result ≡ self.now.beat }
    {
        self.beat
    }
}
