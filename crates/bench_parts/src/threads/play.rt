// A session's clients, all at once.
use crate::threads::client::{Client, Desk};
use con_console::Console;
use con_events::Session;
use con_script::{generated, read_session};
use std::alloc::{AllocError, Global};
use std::io::Read;
use std::rt::Files;
use std::sync::{Mutex, Wait};
use std::thread::{Threads, for_each_mut};
use std::{fs, io};

// The clients of a session, in the order of their numbers.
fn clients_of(alloc: Global, session: &Session) -> Result<Vec<Client<'_>>, AllocError> {
    let mut clients = Vec::new(alloc);
    let mut number = 0u8;
    for script in session.scripts() {
        number = number.saturating_add(1);
        clients.push(Client {
            number,
            steps: script.steps.0.as_slice(),
        })?;
    }
    Ok(clients)
}

// How many events they enter into a console.
fn entered<R: Threads + Wait + Sync>(
    rt: &R,
    console: &mut Console,
    clients: &mut [Client<'_>],
) -> u64 {
    let desk = Mutex::new(Desk { console, events: 0 });
    let threads = clients.len().max(1);
    for_each_mut(
        rt,
        clients,
        threads,
        &|_, client: &mut Client<'_>| { client.work(rt, &desk) },
    );
    desk.into_inner().events
}

// How many events the clients of a session enter.
fn played<R: Threads + Wait + Sync>(
    rt: &R,
    alloc: Global,
    session: &Session,
    clients: &mut [Client<'_>],
) -> Option<u64> {
    match Console::new(alloc, session, &[]) {
        Ok(mut console) => Some(entered(rt, &mut console, clients)),
        Err(_) => None,
    }
}

// Prints how many events the clients of a session enter.
fn print<R: Threads + Wait + Print + Sync>(
    rt: &R,
    alloc: Global,
    session: &Session,
) -> io::Result<()> {
    let mut clients = clients_of(alloc, session)?;
    match played(rt, alloc, session, clients.as_mut_slice()) {
        Some(events) => println!(rt; "{events} events"),
        None => println!(rt; "no memory"),
    }
}

/// Prints it of the session that is generated from the number 1.
pub fn print_generated<R: Threads + Wait + Print + Sync>(rt: &R, alloc: Global) -> io::Result<()> {
    match generated(alloc, 1) {
        Ok(session) => print(rt, alloc, &session),
        Err(_) => println!(rt; "no memory"),
    }
}

/// Prints it of the session of a file.
pub fn print_file<R: Threads + Wait + Print + Files + Sync>(
    rt: &R,
    alloc: Global,
    name: &str,
) -> io::Result<()> {
    let mut bytes = Vec::new(alloc);
    fs::open(rt, name)?.read_to_end(&mut bytes)?;
    match read_session(alloc, bytes.as_slice()) {
        Ok(session) => print(rt, alloc, &session),
        Err(_) => println!(rt; "no session"),
    }
}
