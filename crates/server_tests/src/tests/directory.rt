// The server over a database in memory.
mod attaching;
mod broker;
mod chime;
mod deleting;
mod full;
mod letters;
mod memory;
mod moving;
mod pieces;
mod retries;
mod stops;
mod trimming;
mod unloading;
mod world;
