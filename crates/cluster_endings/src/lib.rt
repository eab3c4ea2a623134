//! What the end of a decision does at a node: the child, the returns, the image, the news.
#![tactic(auto)]
