// What the program says of itself.

/// How it is used.
pub const HELP: &str = r#"usage: pulsar_broker database address workers [connections] [word ..]

A topic broker with Apache Pulsar's subscription types, spoken to by JSON over WebSockets.

  database      a file, which is made where it is missing; :memory: is gone with the program
  address       where to listen, as 127.0.0.1:8080 or [::1]:8080
  workers       threads that serve connections, 1 to 256: one for each processor
  connections   for tests: end after so many
  keep=rule     what is kept of what every subscription has acknowledged:
                keep=all (the default), keep=1000 messages, keep=86400000ms
  backup=folder where copies of the database go that an administrator asks for (brokerctl backup)
  open          everybody who reaches the address may publish, consume and administer, and that is meant
  hosts=name,.. names by which it may be asked, beside localhost and addresses in digits
  origins=o,..  origins such as https://page.example whose web pages may use it, beside its own
  letters=own   a consumer's dead letters stay in the tenant and namespace of its topic
  per-address=c,t,s  at once from one address of another machine: c connections, at t topics; and s sessions begun within a
                second: per-address=16384,192,4096 (the default)
  most=bytes    a topic whose messages have so many bytes is full: without it only 1,048,576 messages fill one
  disk=bytes    where the database's file and its log have so many bytes, publishes are refused until there is room again
  expire=30d    a subscription that nobody has been in for so long, counted from the start on, is dropped
  refusals=http a session that does not begin is answered with a status and why, and not opened and then closed
  silence=a,b   a client that is silent for a is pinged, and ended b later: silence=30000ms,45000ms (the default)

  pulsar_broker broker.db 127.0.0.1:8080 4 keep=86400000ms

At its address:
  ws://HOST/ws/v2/producer/persistent/TENANT/NAMESPACE/TOPIC
  ws://HOST/ws/v2/consumer/persistent/TENANT/NAMESPACE/TOPIC/SUBSCRIPTION
  ws://HOST/ws/v2/admin/persistent/TENANT/NAMESPACE/TOPIC
  http://HOST/           a page with the topics, their backlogs and what is wrong
  http://HOST/health     200 while what is published is stored
  http://HOST/metrics    numbers for Prometheus
  http://HOST/overview   the same in JSON

brokerctl publishes, consumes and looks after topics from the command line. End the program by any
signal, at any moment: what was answered ok is there at the next start.
"#;
