//! Starts the programs for the cases of a table, one a line, and prints the outcome of each. A line that begins
//! with `#` is printed as it is; the cases behind it begin with no store. In a line `\n`, `\r` and `\x41` mean LF, CR
//! and any byte, `<3*ab>` means `ababab`, and a field `@NAME` means the file NAME in `data/`.
//!
//! A start: `WAY|WORDS|INPUT`. Words have a space between them, `""` is the empty word, `STORE` the file of the store,
//! and `PORT` a port that is free. They start `iodef-hub`, or `iodef-redact` if that is the first. WAY is one of
//!
//! - `run`: the input is given whole, and all output is taken;
//! - `cut`: reading fails behind the input; `starved`: there is no memory for reading behind it;
//! - `unwritten`: the output takes nothing; `untold`: standard error takes nothing either;
//! - `wordless`: there is no memory for the words;
//! - `held`: another program has the store open; `taken`: another program has the port.
//!
//! The answer is the exit status, each line of the output behind `>`, and each line of standard error behind `!`; of a
//! usage only the first.
//!
//! Connections: `serve|BYTES|BYTES..` starts `serve STORE PORT` for so many callers. They connect as soon as the port
//! is printed, and send these bytes; one that sends `-` leaves at once. Behind `<` follows the reply to each of the
//! others, with `\r` and `\n` for CR and LF. `memory|CLOCK|BYTES..` is the same over a hub in memory, with organisation
//! 1 and its administrator, whose key is `abc`. CLOCK is the time that its clock always has, in seconds since 1970, or
//! `stopped`. `post|KEY|TARGET|BODY` posts to the store, also several times, a line each; the answer is how many are
//! done, or else the first reply to one that isn't.
//!
//! `reached` starts `serve STORE PORT 0`, and tells at which addresses of loopback somebody listens on the port when it
//! is printed. `lost` starts the same, and empties the log of the store then.
//!
//! Files and clocks: `sql|STATEMENTS` runs over the file of the store, which is made if it isn't there; `left|STATEMENTS`
//! leaves what it changes in the log. `file|BYTES` puts these bytes there, and `link` gives the file a second name, or
//! takes it away. `modes|WORD` prints the mode of the file of this name, and of its log. `clock|CLOCK` prints
//! the present moment, and `ask|CLOCK|INPUT` the reply of the hub in memory to the caller in the input. `ask starved`
//! has no memory for reading.
#![tactic(auto)]

mod addresses;
mod calls;
mod loss;
mod memory;
mod place;
mod starts;
mod statements;
mod streams;
mod texts;
mod told;
mod words;

use place::Place;
use std::io;

/// Returns what is printed for a line, each of its lines ended.
fn answer(rt: &HostRuntime, place: &Place, line: &str) -> io::Result<String> {
    let (way, rest) = line.split_once('|').unwrap_or((line, ""));
    match way {
        "serve" => starts::serve(rt, place, rest),
        "post" => starts::post(rt, place, rest),
        "reached" => starts::reach(rt, place),
        "lost" => starts::lose(rt, place),
        "held" => statements::hold(rt, place, rest),
        "sql" => statements::run(rt, place, rest),
        "left" => statements::leave(rt, place, rest),
        "file" => place.put(rt, rest),
        "link" => place.link(rt),
        "modes" => place.modes(rt, rest),
        "clock" => memory::moment(rt, rest),
        "memory" => memory::serve(rt, rest),
        "ask" | "ask starved" => memory::ask(rt, way, rest),
        _ => starts::start(rt, place, way, rest),
    }
}

/// Prints the outcomes of a table.
pub fn run(rt: &HostRuntime, table: &str) -> io::Result<()> {
    let place = Place::new(rt)?;
    for line in table.lines() {
        if line.starts_with('#') {
            place.clear(rt);
            println!(rt; "{line}")?;
        } else {
            let answer = answer(rt, &place, line)?;
            print!(rt; "{answer}")?;
        }
    }
    place.clear(rt);
    Ok(())
}
