mod jobs;
mod outcomes;
mod records;
mod streams;
mod summaries;
mod values;
mod wheel;
