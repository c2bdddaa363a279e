// Reading scripts.
ghost use Rattle.std.specs.Prelude.{◌≡◌, ◌≤◌, ◌<◌, ◌^◌, ◌∷◌, [], Some, false, IfOk, IfErr, OnOk};
ghost use Rattle.std.specs.Prelude.{length};
ghost use Rattle.pipes_query.specs.declared.script.Script.{Script as AScript};
ghost use Rattle.pipes_reader.specs.Reading.{GivesFrom};
ghost use Rattle.pipes_reader.specs.Texts.{ReadAs};
ghost use Rattle.pipes_grammar.specs.Grammar.{HasSourceName};
ghost use Rattle.pipes_query.specs.Queries.{names_of};
ghost use Rattle.pipes_text.specs.Scripts.{migrations};
ghost use Rattle.pipes_text.specs.ScriptReading as spec;
ghost use Rattle.pipes_text.specs.ScriptTexts.{IsFileOfScript, ScriptCause, HasScriptText};
ghost use Rattle.pipes_text.specs.Writable.{IsWritableQuery, IsWritableScript};

use crate::mark::Start;
use pipes_grammar::source_named;
use pipes_query::{Command, Commands, Mode, Names, Query, Script, names_of};
use pipes_reader::{
    Cursor, Entries, ParseFault, Parser, many_within, ran_out, read_text, refused, take_number,
    take_text,
};
use pipes_time::{HORIZON, Memory};
use pipes_token::{Keyword, ReadFault, Refusal, TextWhy, Token, TokenKind};
use pipes_tuple::Text;
use std::alloc::Global;
use std::marker::Model;

// ---- the first token of a command

fn start_of(kind: &TokenKind) -> Option<Start>
    ensures { result ≡ spec.command_start_of kind.now }
{
    match kind {
        TokenKind::Keyword(Keyword::Feed) => Some(Start::Feed),
        TokenKind::Keyword(Keyword::Rest) => Some(Start::Rest),
        TokenKind::Keyword(Keyword::Await) => Some(Start::Await),
        TokenKind::Keyword(Keyword::Migrate) => Some(Start::Migrate),
        TokenKind::Keyword(Keyword::Drain) => Some(Start::Drain),
        _ => None,
    }
}

// Why a command may not begin so.
fn bar(mode: Mode, full: bool, moved: bool, start: Start) -> Option<TextWhy>
    ensures { result ≡ spec.bar mode full moved start }
{
    match (mode, start) {
        (Mode::Threaded, Start::Feed) => Some(TextWhy::Mode),
        (Mode::Threaded, Start::Rest) => Some(TextWhy::Mode),
        (Mode::Inline, Start::Await) => Some(TextWhy::Mode),
        (_, Start::Migrate) if full || moved => Some(TextWhy::Many),
        _ if full => Some(TextWhy::Many),
        _ => None,
    }
}

fn bar_of(mode: Mode, full: bool, moved: bool, kind: &TokenKind) -> Option<TextWhy>
    ensures { result ≡ spec.bar_of mode full moved kind.now }
{
    match start_of(kind) {
        Some(start) => bar(mode, full, moved, start),
        None => None,
    }
}

// How the next command begins, where one does that may be here.
#[tactic(auto, unfolding(crate::specs::ScriptReading::read_bar, pipes_reader::specs::Reading::unless))]
fn next_start(
    mode: Mode,
    full: bool,
    moved: bool,
    cursor: &Cursor<'_>,
) -> Result<Option<Start>, ParseFault>
    ensures exact { GivesFrom (λ start. tt)
        (spec.read_bar mode full moved) cursor.now cursor.now result }
    ensures value { IfOk result (λ start. start ≡ spec.first_start cursor.now) }
    ensures bound { IfOk result (λ start. start ≡ Some Start.Migrate → moved ≡ false) }
{
    let [token, ..] = cursor.rest() else {
        return Ok(None);
    };
    match bar_of(mode, full, moved, &token.kind) {
        Some(why) => Err(ParseFault::Refused(Refusal { at: token.at, why })),
        None => Ok(start_of(&token.kind)),
    }
}

// ---- sources

fn source_of(names: &[Text], kind: &TokenKind) -> Option<u32>
    requires { length names.now < 2 ^ 32 }
    ensures { result ≡ spec.source_of names.now kind.now }
{
    match kind {
        TokenKind::Name(word) => source_named(names, word),
        _ => None,
    }
}

fn source_refused(token: &Token) -> Refusal
    ensures { result ≡ spec.source_refused token.now.kind token.now.at }
{
    match token.kind {
        TokenKind::Name(_) => Refusal {
            at: token.at,
            why: TextWhy::Name,
        },
        _ => refused(token),
    }
}

// The number of a source by its name.
#[tactic(auto, unfolding(crate::specs::ScriptReading::take_source, pipes_reader::specs::Reading::take_by, pipes_reader::specs::Reading::take_first))]
fn take_source(names: &[Text], cursor: &mut Cursor<'_>) -> Result<u32, ParseFault>
    requires { length names.now < 2 ^ 32 }
    ensures { GivesFrom (λ number. number)
        (spec.take_source names.now) cursor.old cursor.new result }
{
    match cursor.rest() {
        [] => Err(ParseFault::Refused(ran_out())),
        [token, ..] => cursor.take(source_of(names, &token.kind), source_refused(token)),
    }
}

// ---- commands

// What a script is read over: the names of the sources, and the mode.
#[derive(Drop)]
struct Setting {
    names: Vec<Text>,
    mode: Mode,
}

impl Model for Setting {
    ghost use Rattle.std.specs.Prelude.{◌≤◌, List, ℕ, length};
    ghost use Rattle.pipes_query.specs.declared.script.Mode.{Mode};

    ghost Value = { List (List ℕ) × Mode };

    ghost view = { λ s. (s.names.items, s.mode) };

    ghost invariant = { λ s. (1 ≤ length s.names.items) × (length s.names.items ≤ 16) };
}

// The script that was read so far, and how many of its commands are migrate commands.
#[derive(Drop)]
struct ScriptList {
    commands: Vec<Command>,
    files: Vec<Text>,
    moves: u32,
}

impl Model for ScriptList {
    ghost use Rattle.std.specs.Prelude.{◌≡◌, ◌≤◌, vec_len};
    ghost use Rattle.pipes_query.specs.declared.script.Script.{Script};
    ghost use Rattle.pipes_text.specs.Scripts.{migrations};

    ghost Value = { Script };

    ghost view = { λ l. record { commands = l.commands.items; files = l.files.items } };

    ghost invariant = { λ l. (l.moves ≡ migrations l.commands.items)
        × (vec_len l.files ≤ l.moves) };
}

impl ScriptList {
    // One more command that moves to no other plan.
    #[tactic(auto, using(crate::proofs::ScriptValues::migrations_after))]
    fn add(&mut self, command: Command) -> Result<(), Memory>
        requires { migrations (command ∷ []) ≡ 0 }
        ensures { OnOk result (self.new ≡ spec.with_command self.old command) }
    {
        self.commands.push(command)?;
        Ok(())
    }

    // One more migrate command.
    #[tactic(auto, using(crate::proofs::ScriptValues::migrations_after))]
    fn add_move(&mut self, file: Text) -> Result<(), Memory>
        requires { migrations self.now.commands < 2048 }
        ensures { OnOk result (self.new ≡ spec.with_migrate self.old file) }
    {
        match source_named(self.files.as_slice(), &file) {
            Some(place) => {
                self.commands.push(Command::Migrate(place))?;
                self.moves += 1;
                Ok(())
            }
            None => {
                let place = self.files.len() as u32;
                self.files.push(file)?;
                match self.commands.push(Command::Migrate(place)) {
                    Ok(()) => {
                        self.moves += 1;
                        Ok(())
                    }
                    Err(_) => {
                        let _ = self.files.pop();
                        Err(Memory)
                    }
                }
            }
        }
    }

    // The rest of a command that begins so.
    fn read_command(
        &mut self,
        names: &[Text],
        start: Start,
        cursor: &mut Cursor<'_>,
    ) -> Result<(), ParseFault>
        requires names { length names.now < 2 ^ 32 }
        requires room { start ≡ Start.Migrate → migrations self.now.commands < 2048 }
        ensures { GivesFrom (λ done. self.new)
            (spec.read_command names.now self.old start) cursor.old cursor.new result }
    {
        match start {
            Start::Feed => {
                let source = take_source(names, cursor)?;
                let count = take_number(1, 4_000_000, cursor)?;
                self.add(Command::Feed(source, count))?;
            }
            Start::Rest => self.add(Command::Rest)?,
            Start::Await => {
                let instant = take_number(0, HORIZON, cursor)?;
                self.add(Command::Await(instant))?;
            }
            Start::Migrate => {
                let file = take_text(cursor)?;
                self.add_move(file)?;
            }
            Start::Drain => self.add(Command::Drain)?,
        }
        Ok(())
    }
}

impl Entries<Setting> for ScriptList {
    ghost step = { λ setting. spec.next_command setting.0 setting.1 };

    ghost over = { λ setting. spec.end_commands setting.1 };

    #[tactic(auto, unfolding(crate::specs::ScriptReading::next_command, pipes_reader::specs::Reading::optional))]
    fn step(&mut self, setting: &Setting, cursor: &mut Cursor<'_>) -> Result<bool, ParseFault> {
        match next_start(setting.mode, false, 2048 <= self.moves, cursor)? {
            Some(start) => {
                cursor.skip();
                self.read_command(setting.names.as_slice(), start, cursor)?;
                Ok(true)
            }
            None => Ok(false),
        }
    }

    #[tactic(auto, unfolding(crate::specs::ScriptReading::end_commands))]
    fn over(&mut self, setting: &Setting, cursor: &mut Cursor<'_>) -> Result<(), ParseFault> {
        next_start(setting.mode, true, true, cursor)?;
        Ok(())
    }
}

// All commands of a script.
#[tactic(auto, using(crate::proofs::ScriptLaws::commands_fit, crate::proofs::ScriptLaws::files_fit), unfolding(crate::specs::ScriptReading::parse_script))]
fn read_commands(
    alloc: Global,
    setting: &Setting,
    cursor: &mut Cursor<'_>,
) -> Result<ScriptList, ParseFault>
    ensures exact { GivesFrom (λ script. script)
        (spec.parse_script setting.now.0 setting.now.1) cursor.old cursor.new result }
    ensures commands { IfOk result (λ script. length script.commands ≤ 65536) }
    ensures files { IfOk result (λ script. length script.files ≤ 2048) }
{
    let _ = &setting.names;
    let mut list = ScriptList {
        commands: Vec::new(alloc),
        files: Vec::new(alloc),
        moves: 0,
    };
    many_within(65_536, setting, &mut list, cursor)?;
    Ok(list)
}

impl Parser<Script> for Setting {
    ghost reads = { λ setting. spec.parse_script setting.0 setting.1 };

    fn parse(&self, alloc: Global, cursor: &mut Cursor<'_>) -> Result<Script, ParseFault> {
        let list = read_commands(alloc, self, cursor)?;
        Ok(Script {
            commands: Commands::new(list.commands).unwrap(),
            files: Names::new(list.files).unwrap(),
        })
    }
}

/// The script of the text, over the query's sources and in the mode.
#[tactic(auto, using(crate::proofs::ScriptTexts::script_found, crate::proofs::ScriptTexts::script_only, crate::proofs::ScriptTexts::script_refused, crate::proofs::WritableScripts::script_has_text))]
pub fn read_script(
    alloc: Global,
    query: &Query,
    mode: Mode,
    bytes: &[u8],
) -> Result<Script, ReadFault>
    requires { 1 ≤ length query.now.sources }
    // What is read is the text's script.
    ensures found { IfOk result (λ script. IsFileOfScript query.now mode script bytes.now) }
    // The text's script is read, unless memory runs out.
    ensures only { (script : AScript) → IsFileOfScript query.now mode script bytes.now
        → ReadAs script result }
    // A refusal is the first that the text has, and it has one, where one of the sources has a name
    // that texts have, as in each query that was read.
    ensures refused { HasSourceName (names_of query.now.sources)
        → IfErr result (λ fault. ScriptCause query.now mode bytes.now fault) }
    // A script that some text has is writable.
    ensures writable { (script : AScript) → HasScriptText query.now mode script
        → IsWritableScript (length query.now.sources) mode script }
    // And a writable script over a query of a text has a text.
    ensures has_text { IsWritableQuery query.now → (script : AScript)
        → IsWritableScript (length query.now.sources) mode script
        → HasScriptText query.now mode script }
{
    let names = names_of(alloc, query.sources.as_slice())?;
    read_text(alloc, &Setting { names, mode }, bytes)
}
