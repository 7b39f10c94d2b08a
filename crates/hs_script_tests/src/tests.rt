// The calls of hs_script, by their public names.
mod heads;
