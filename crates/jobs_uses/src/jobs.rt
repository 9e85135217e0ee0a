mod ends;
mod frames;
mod lines;
mod sockets;
