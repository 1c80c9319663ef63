//! The calls of tables with one route for each network.
use crate::fault::{Fault, made};
use crate::nets::network;
use crate::show::{begin, end, ended, ended_list, ended_with, line, lines};
use crate::subject::Subject;
use crate::tables::{ROUTES, change};
use ipnet::IpNet;
use route_table::{Hop, HopTable, Operation, Refused};
use std::alloc::Global;

/// The calls of such tables that allocate, and those that do not.
#[derive(Clone, Copy)]
pub enum HopTableCall {
    Install,
    Paint,
    FromRoutes,
    Least,
    Updates,
    CarryOut,
    CarryOutThree,
    Free,
}

/// The routes of a route table, one for each network.
impl Subject for HopTable {
    type Call = HopTableCall;

    fn empty(alloc: Global) -> Result<HopTable, Fault> {
        made(HopTable::new(alloc))
    }

    fn fill(&mut self) -> Result<(), Fault> {
        for (text, hop, _) in &ROUTES {
            made(self.overwrite(network(text)?, *hop))?;
        }
        Ok(())
    }

    /// The flat list.
    fn show(&self, rt: &HostRuntime) {
        lines(rt, "", self.flat());
    }

    fn call(&mut self, rt: &HostRuntime, call: HopTableCall) -> Result<(), Fault> {
        match call {
            HopTableCall::Install => change(rt, self, network("10.1.0.0/20")?, |table, net| {
                table.install(net, Hop::Number(9))
            }),
            HopTableCall::Paint => change(rt, self, network("10.1.2.0/24")?, |table, net| {
                table.paint(net, Hop::Number(9))
            }),
            HopTableCall::FromRoutes => from_routes(rt, self),
            HopTableCall::Least => {
                begin(rt);
                ended_list(rt, self.least());
                Ok(())
            }
            HopTableCall::Updates => updates(rt, self),
            HopTableCall::CarryOut => change(rt, self, network("10.1.3.0/24")?, |table, net| {
                table.carry_out(&[Operation::Install {
                    net,
                    hop: Hop::Number(9),
                }])
            }),
            HopTableCall::CarryOutThree => carry_out_three(rt, self),
            HopTableCall::Free => free(rt, self),
        }
    }
}

/// Another table, made of the routes of a least table.
fn from_routes(rt: &HostRuntime, table: &HopTable) -> Result<(), Fault> {
    let Ok(list) = table.least() else {
        return Err(Fault::Values);
    };
    begin(rt);
    answer_table(rt, HopTable::from_routes(rt.alloc(), list.as_slice()));
    Ok(())
}

/// Shows the flat list of a table that a call made.
fn answer_table(rt: &HostRuntime, outcome: Result<HopTable, Refused>) {
    if let Some(table) = ended(rt, outcome) {
        lines(rt, "answer ", table.flat());
    }
}

/// Changes in both families, some inside others. The quarters of 10.0.0.0/10 get four hops. The other half of 10.0.0.0/9 has a route of
/// its own, so the computation copies a list of four hops.
const CHANGES: [(&str, Hop); 8] = [
    ("10.0.0.0/12", Hop::Number(4)),
    ("10.16.0.0/12", Hop::Number(5)),
    ("10.32.0.0/12", Hop::Number(6)),
    ("10.48.0.0/12", Hop::Number(7)),
    ("10.64.0.0/11", Hop::Number(8)),
    ("10.1.0.0/16", Hop::Number(9)),
    ("10.1.2.0/24", Hop::Drop),
    ("2001:db8::/31", Hop::Number(9)),
];

fn add_changes(changes: &mut Vec<(IpNet, Hop)>) -> Result<(), Fault> {
    for (text, hop) in &CHANGES {
        made(changes.push((network(text)?, *hop)))?;
    }
    Ok(())
}

/// The operations of these changes.
fn updates(rt: &HostRuntime, table: &HopTable) -> Result<(), Fault> {
    let mut changes = Vec::new(rt.alloc());
    add_changes(&mut changes)?;
    begin(rt);
    ended_list(rt, table.updates(changes.as_slice()));
    Ok(())
}

/// Three installs of networks that no route contains.
fn carry_out_three(rt: &HostRuntime, table: &mut HopTable) -> Result<(), Fault> {
    let hop = Hop::Number(9);
    let nets = [
        network("192.0.2.0/24")?,
        network("198.51.100.0/24")?,
        network("3fff::/20")?,
    ];
    let operations = [
        Operation::Install { net: nets[0], hop },
        Operation::Install { net: nets[1], hop },
        Operation::Install { net: nets[2], hop },
    ];
    begin(rt);
    ended_with(rt, table.carry_out(&operations), "changed");
    Ok(())
}

/// Calls that store nothing new, and then the operations to a least table.
fn free(rt: &HostRuntime, table: &mut HopTable) -> Result<(), Fault> {
    let (stored, handed) = (network("10.1.2.4/30")?, network("10.1.2.0/24")?);
    let Ok(list) = table.least() else {
        return Err(Fault::Values);
    };
    begin(rt);
    change_nothing(rt, table, stored, handed);
    lines(rt, "", table.between(list.as_slice()));
    end(rt);
    Ok(())
}

/// Changes that store nothing: two of a stored network, and one of a network that inherits its hop. Then a lookup.
fn change_nothing(rt: &HostRuntime, table: &mut HopTable, stored: IpNet, handed: IpNet) {
    line(rt, &table.install(stored, Hop::Number(8)));
    line(rt, &table.paint(stored, Hop::Number(7)));
    line(rt, &table.paint(handed, Hop::Number(2)));
    line(rt, &table.get(&stored));
}
