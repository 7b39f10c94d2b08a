// The crates that use the outside, by their public names.
mod commit_texts;
mod gates;
mod logs;
mod support;
