//! The lines of a redistribution (HPF 2.0, 8.3).

ghost use Rattle.std.specs.Prelude.{◌≡◌, ◌++◌, All, IfOk, OnOk, map};
ghost use Rattle.std.specs.List.{flat_map};
ghost use Rattle.machine_steps.specs.Layout.{sizes};
ghost use Rattle.message_text.specs.MessageText.{redistribution_lines, rounds_lines};
ghost use Rattle.redistribute_rounds.specs.Rounds.{IsBetween};
ghost use Rattle.message_lines.specs.Messages.{all_remap_messages};
ghost use Rattle.message_lines.specs.RowLines.{pair_line};
ghost use Rattle.message_lines.specs.Settings.{setting_of};

use crate::message_line::{add_message, round_head};
use crate::rows::Rows;
use comm_sets::{Messages, Pair, Rounds, remap_outgoing, remap_rounds};
use hpf_base::OutOfMemory;
use owner_tables::Owners;
use std::alloc::Global;

/// What a redistribution of rows sends.
#[derive(Drop)]
struct Moving<'a> {
    rows: &'a Rows<'a>,
    /// How the rows lie after it.
    after: &'a Owners,
    /// The messages from each node, node 0 first, to each node.
    outgoing: Vec<Messages>,
    ghost sent: { outgoing.items ≡ all_remap_messages rows.now.owners.nodes rows.now.owners.layouts after.now.layouts },
}

/// Adds the lines of the redistribution of a line after which the rows lie so, by round and then by source. The rows are of the same sizes
/// before and after.
pub(crate) fn add_redistribution(
    alloc: Global,
    rows: &Rows<'_>,
    after: &Owners,
    line: u32,
    text: &mut Vec<u8>,
) -> Result<(), OutOfMemory>
    requires nodes { rows.now.owners.nodes ≡ after.now.nodes }
    requires sizes { sizes rows.now.owners.layouts ≡ sizes after.now.layouts }
    ensures { OnOk result (text.new.items ≡ text.old.items ++ redistribution_lines (setting_of rows.now) line rows.now.owners.layouts after.now.layouts) }
{
    let rounds = remap_rounds(alloc, &rows.owners, after)?;
    let outgoing = all_outgoing(alloc, &rows.owners, after)?;
    let moving = Moving {
        rows,
        after,
        outgoing,
    };
    moving.add_rounds(alloc, line, &rounds, text)
}

/// The messages from each node, node 0 first, to each node.
fn all_outgoing(
    alloc: Global,
    before: &Owners,
    after: &Owners,
) -> Result<Vec<Messages>, OutOfMemory>
    requires nodes { before.now.nodes ≡ after.now.nodes }
    requires sizes { sizes before.now.layouts ≡ sizes after.now.layouts }
    ensures { IfOk result (λ v. v.items ≡ all_remap_messages before.now.nodes before.now.layouts after.now.layouts) }
{
    let mut all = Vec::new(alloc);
    for from in 0..before.nodes() {
        all.push(remap_outgoing(alloc, before, after, from)?)?;
    }
    Ok(all)
}

impl<'a> Moving<'a> {
    /// Adds the lines of these rounds of the redistribution of a line, the first of which has the number 1.
    fn add_rounds(
        &self,
        alloc: Global,
        line: u32,
        rounds: &Rounds,
        text: &mut Vec<u8>,
    ) -> Result<(), OutOfMemory>
        requires { All (All (IsBetween self.now.rows.now.owners.nodes)) (map (λ v. v.items) rounds.now.list.items) }
        ensures { OnOk result (text.new.items ≡ text.old.items
            ++ rounds_lines (setting_of self.now.rows.now) line self.now.rows.now.owners.layouts self.now.after.now.layouts 1 (map (λ v. v.items) rounds.now.list.items)) }
    {
        for place in 0..rounds.len() {
            let head = round_head(alloc, line, place + 1)?;
            self.add_round(alloc, &head, rounds.pairs(place), text)?;
        }
        Ok(())
    }

    /// Adds the lines of the messages of these pairs, in order, each after the words that it begins with.
    fn add_round(
        &self,
        alloc: Global,
        head: &[u8],
        pairs: &[Pair],
        text: &mut Vec<u8>,
    ) -> Result<(), OutOfMemory>
        requires { All (IsBetween self.now.rows.now.owners.nodes) pairs.now }
        ensures { OnOk result (text.new.items ≡ text.old.items ++ flat_map (pair_line self.now.rows.now self.now.after.now.layouts head.now) pairs.now) }
    {
        for pair in pairs {
            self.add_pair(alloc, head, pair, text)?;
        }
        Ok(())
    }

    /// Adds the line of the message of a pair.
    fn add_pair(
        &self,
        alloc: Global,
        head: &[u8],
        pair: &Pair,
        text: &mut Vec<u8>,
    ) -> Result<(), OutOfMemory>
        requires { IsBetween self.now.rows.now.owners.nodes pair.now }
        ensures { OnOk result (text.new.items ≡ text.old.items ++ pair_line self.now.rows.now self.now.after.now.layouts head.now pair.now) }
    {
        let outgoing = &self.outgoing[pair.from.0 as usize];
        let spots = outgoing.with(pair.to.0);
        add_message(alloc, self.rows, head, pair.from.0, pair.to.0, spots, text)?;
        Ok(())
    }
}
