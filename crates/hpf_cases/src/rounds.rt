//! Rounds of redistributions, as `messages` lists them.

use std::str;

/// A message of a redistribution: the line, the round, and between which nodes it goes.
#[derive(Drop)]
struct Message {
    line: u64,
    round: u64,
    from: usize,
    to: usize,
}

/// The messages of a redistribution that were seen: of each node how many it sends and takes, and in the last round the
/// nodes that send and those that take, a bit for each.
#[derive(Drop)]
struct Seen {
    line: u64,
    round: u64,
    sends: [u64; 64],
    takes: [u64; 64],
    senders: u64,
    takers: u64,
}

/// Whether in each round of each redistribution in this list a node sends one message at most and takes one at most, the
/// rounds are numbered from 1, and there are as many as some node sends messages, or takes.
pub fn are_fewest(list: &[u8]) -> bool {
    let Ok(list) = str::from_utf8(list) else {
        return false;
    };
    let mut seen = nothing_seen(0);
    for line in list.split('\n') {
        if let Some(message) = message_of(line) {
            if message.line != seen.line || message.round < seen.round {
                if !is_needed(&seen) {
                    return false;
                }
                seen = nothing_seen(message.line);
            }
            if !note(&mut seen, &message) {
                return false;
            }
        }
    }
    is_needed(&seen)
}

/// Nothing was seen of the redistribution of a line.
fn nothing_seen(line: u64) -> Seen {
    Seen {
        line,
        round: 0,
        sends: [0; 64],
        takes: [0; 64],
        senders: 0,
        takers: 0,
    }
}

/// The message of a redistribution that a line lists; None where it lists none.
fn message_of(line: &str) -> Option<Message> {
    let (line, rest) = line.strip_prefix("line ")?.split_once(": round ")?;
    let (round, rest) = rest.split_once(": ")?;
    let (from, rest) = rest.split_once(" -> ")?;
    let (to, _elements) = rest.split_once(": ")?;
    Some(Message {
        line: line.parse::<u64>().ok()?,
        round: round.parse::<u64>().ok()?,
        from: from.parse::<usize>().ok()?,
        to: to.parse::<usize>().ok()?,
    })
}

/// Whether as many rounds were seen as some node sends messages, or takes.
fn is_needed(seen: &Seen) -> bool {
    let mut most = 0;
    for node in 0..64 {
        most = most.max(seen.sends[node]).max(seen.takes[node]);
    }
    seen.round == most
}

/// Notes a message; false where its round isn't the last one or the one after it, or has its source or its target already.
fn note(seen: &mut Seen, message: &Message) -> bool {
    let (from, to) = (message.from, message.to);
    if from >= 64 || to >= 64 || message.round > seen.round.saturating_add(1) {
        return false;
    }
    if message.round > seen.round {
        seen.round = message.round;
        seen.senders = 0;
        seen.takers = 0;
    }
    if seen.senders >> from & 1 == 1 || seen.takers >> to & 1 == 1 {
        return false;
    }
    seen.senders |= 1 << from;
    seen.takers |= 1 << to;
    seen.sends[from] = seen.sends[from].saturating_add(1);
    seen.takes[to] = seen.takes[to].saturating_add(1);
    true
}
