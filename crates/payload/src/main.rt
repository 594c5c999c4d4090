// Reads lines and prints, for each, its number and what it did: the bytes of a value, the value of bytes, or the refusal. It
// holds one node and one Meta, which the lines change.
#![tactic(auto)]

mod answer;
mod command;
mod line_fault;
mod making;
mod payload;
mod reading;
mod session;
mod shown;
mod strings;

use command::Line;
use reading::line_of;
use session::Session;
use std::io;

// Carries a line out, and prints what it did.
fn carry_out(rt: &HostRuntime, session: &mut Session, number: u64, text: &str) -> io::Result<()> {
    match line_of(rt.alloc(), text) {
        Ok(Line::Blank) => Ok(()),
        Ok(Line::Comment) => println!(rt; "{text}"),
        Ok(Line::Command(command)) => match session.run(&command) {
            Ok(answer) => println!(rt; "{number} {answer}"),
            Err(fault) => println!(rt; "{number} {fault}"),
        },
        Err(fault) => println!(rt; "{number} {fault}"),
    }
}

fn main(rt: HostRuntime) -> io::Result<()> {
    let mut session = Session::new();
    for (number, line) in (1u64..).zip(rt.lines(rt.alloc())) {
        carry_out(&rt, &mut session, number, line?.as_str())?;
    }
    Ok(())
}
