//! Records and vectors carried between centres, through any door and by one caller's hand.
#![tactic(auto)]

mod asks;
mod brings;
mod deliveries;
mod detours;
mod ends;
mod feeds;
mod inlets;
mod item_bytes;
mod laws;
mod mails;
mod news;
mod relays;
mod reports;
mod rounds;
mod sends;
mod settling;
mod ships;
mod tells;

pub use asks::{ask_only, ask_unheard};
pub use brings::{bring, bring_held, bring_one, bring_rest};
pub use deliveries::{deliver, deliver_all};
pub use ends::{base_line, is_there, relay_line, ship_line};
pub use feeds::{feed, find_show};
pub use inlets::Inlet;
pub use item_bytes::law_item_bytes;
pub use laws::{law_carried, law_links, law_mailed, law_settled};
pub use mails::{mail_for, prune_round, report_round};
pub use relays::relay_all;
pub use sends::{Handed, send_for};
pub use settling::settle;
pub use ships::{ship_all, ship_one};
pub use tells::tell;
