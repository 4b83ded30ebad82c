// Prints our tables of moments, spells and dwellings, holds them against published ones, and tries the laws of a relation algebra.
#![tactic(auto)]

use literature::literature::published_tables;
use literature::summary::print_all;
use std::io;

fn main(rt: HostRuntime) -> anyhow::Result<()> {
    print_all(&mut io::writer(&rt), published_tables(), figures::count())
}
