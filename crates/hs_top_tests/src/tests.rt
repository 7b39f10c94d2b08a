// The runs of the top call, by its public names.
mod logs;
mod never;
mod noting;
mod support;
