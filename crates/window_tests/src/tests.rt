//! Tiles and bands, and what a script of commands can't express: one file for each subject.

mod bands;
mod commands;
mod fixtures;
mod layouts;
mod nested;
mod paths;
mod tiles;
mod tilings;
