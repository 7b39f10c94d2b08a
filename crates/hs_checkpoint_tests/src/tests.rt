// The calls of hs_anew, hs_checkpoint and hs_creation, by their public names.
mod creations;
mod damages;
mod moments;
mod reading;
mod texts;
mod torn;
mod words;
