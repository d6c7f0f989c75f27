//! Sessions with one peer, over memory; runs in one thread, and in several; the torrents and recorded peers that they are made of; and the
//! commands that play them.

mod commands;
mod devices;
mod haves;
mod made;
mod serial;
mod settings;
mod sips;
mod swarm;
mod whole;
