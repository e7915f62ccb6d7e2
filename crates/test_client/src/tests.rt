//! Examples of the pages, printing, and the progress of a log.
mod examples;
mod logs;
mod printed;
mod printing;
mod progress;
