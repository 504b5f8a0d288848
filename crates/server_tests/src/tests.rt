// The directory over a database in memory.
mod base;
mod directory;
