// Hosts by their public names.
mod failing;
mod memory;
mod other_files;
mod real;
mod steps;
mod stream;
