mod calls;
mod fixtures;
mod memory;
mod refused;
mod refused_rounds;
mod streams;
